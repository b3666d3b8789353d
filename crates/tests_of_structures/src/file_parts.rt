use qg_image::FilePart;
use qg_items::InodeItem;
use qg_num::{Address, Generation, Ino, Piece};
use qg_tree_items::FileRow;
use std::test::Fail;

fn file(ino: u64, size: u64, nbytes: u64) -> FilePart {
    FilePart::Inode {
        ino: Ino::new(ino),
        inode: InodeItem {
            generation: Generation::new(3),
            transid: Generation::new(3),
            size,
            nbytes,
        },
    }
}

// A piece that is its whole extent.
fn piece(ino: u64, position: u64, len: u64) -> FilePart {
    FilePart::PieceOf {
        ino: Ino::new(ino),
        piece: Piece {
            position,
            len,
            extent: Address::new(1 << 30),
            offset: 0,
            stamp: Generation::new(3),
            extent_bytes: len,
        },
    }
}

fn row_of(parts: &[FilePart]) -> FileRow {
    let mut row = FileRow::empty();
    for part in parts {
        row.push(part);
    }
    row
}

// Whether the answer is this one for the whole row, and wherever it is cut in two.
fn gives(parts: &[FilePart], expected: bool) -> bool {
    for cut in 0..parts.len() {
        let (front, behind) = parts.split_at(cut);
        if row_of(front).join(&row_of(behind)).are_files() != expected {
            return false;
        }
    }
    row_of(parts).are_files() == expected
}

#[test]
fn sound_files(rt: HostRuntime) -> Result<(), Fail> {
    assert!(rt; gives(&[], true));
    assert!(rt; gives(&[file(257, 4096, 0)], true));
    let files = [
        file(257, 16384, 12288),
        piece(257, 0, 4096),
        piece(257, 8192, 8192),
        file(258, 0, 0),
        file(300, 4096, 4096),
        piece(300, 0, 4096),
    ];
    assert!(rt; gives(&files, true));
    Ok(())
}

#[test]
fn files_that_are_not_sound(rt: HostRuntime) -> Result<(), Fail> {
    let rows = [
        // A piece without a file, and a piece of the next one.
        [piece(257, 0, 4096), file(258, 0, 0), file(259, 0, 0)],
        [file(257, 4096, 4096), piece(258, 0, 4096), file(259, 0, 0)],
        // A number of no file, and a size of no whole sectors.
        [file(256, 0, 0), file(257, 0, 0), file(258, 0, 0)],
        [file(257, 0, 0), file(258, 100, 0), file(259, 0, 0)],
        // Another sum, a piece past the end, and two that overlap.
        [file(257, 0, 0), file(258, 4096, 8192), piece(258, 0, 4096)],
        [
            file(257, 0, 0),
            file(258, 4096, 4096),
            piece(258, 4096, 4096),
        ],
        [
            file(257, 8192, 12288),
            piece(257, 0, 8192),
            piece(257, 4096, 4096),
        ],
    ];
    for row in &rows {
        assert!(rt; gives(row, false));
    }
    Ok(())
}
