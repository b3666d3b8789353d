// What is added and dropped in a book of extents.
ghost use Rattle.std.specs.Prelude.{◌≡◌, ◌<◌};
ghost use Rattle.qg_refs.specs.Counts.{greatest_count};

use crate::numbers::Draws;
use qg_extents::Extents;
use qg_items::Reference;
use qg_node::Items;
use qg_num::{Address, BlockFault, Generation, Ino, NoMemory, RootId};
use qg_refs::What;
use std::alloc::Global;

/// Where the first extent lies, in bytes; each next one lies 8192 bytes behind.
const FIRST: u64 = 67174400;

/// The items of a book of so many extents, each with one reference, and every third with that of a snapshot too.
pub(crate) fn first_items(alloc: Global, extents: u32) -> Result<Items, BlockFault> {
    let mut book = Extents::new(alloc);
    for extent in 0..extents {
        edit_one(&mut book, extent, 0, false)?;
        if extent % 3 == 0 {
            edit_one(&mut book, extent, 1, false)?;
        }
    }
    Ok(book.items(alloc)?)
}

/// Adds and drops references of extents that are drawn. The sum of the counts that were seen.
pub(crate) fn edit_book(book: &mut Extents, extents: u32, edits: u32) -> Result<u64, BlockFault>
    requires { 0 < extents }
{
    let mut draws = Draws::new();
    let mut seen = 0u64;
    for _ in 0..edits {
        let extent = draws.below(extents as u64) as u32;
        let which = draws.below(4);
        let is_drop = draws.below(4) > 0;
        let count = edit_one(book, extent, which, is_drop)?;
        seen = seen.wrapping_add(count as u64);
    }
    Ok(seen)
}

/// Drops a reference of an extent, if it is to be dropped and is there, and else adds one more. How often it was there.
fn edit_one(book: &mut Extents, extent: u32, which: u64, is_drop: bool) -> Result<u32, NoMemory> {
    let at = Address::new(FIRST + 8192 * extent as u64);
    let reference = reference_of(extent, which);
    let count = book.count_one(at, &reference);
    if count > 0 && (is_drop || count == u32::MAX) {
        book.drop_at(at, &reference);
    } else {
        let what = What {
            bytes: 8192,
            level: None,
            generation: Generation::new(2),
        };
        book.add_one(at, what, reference)?;
    }
    Ok(count)
}

/// One of four references to an extent: of its file in subvolume 5, of the same file in a snapshot, of a clone, and of
/// a leaf.
fn reference_of(extent: u32, which: u64) -> Reference
    ensures { greatest_count result ≡ 4294967295 }
{
    let number = extent as u64;
    let ino = Ino::new(257 + number % 16);
    let offset = 4096 * number;
    match which {
        0 => keyed(5, ino, offset),
        1 => keyed(256, ino, offset),
        2 => keyed(5, Ino::new(300), 0),
        _ => Reference::SharedData {
            parent: Address::new(1048576 + 16384 * (number % 4032)),
        },
    }
}

fn keyed(root: u64, ino: Ino, offset: u64) -> Reference
    ensures { greatest_count result ≡ 4294967295 }
{
    Reference::KeyedData {
        root: RootId::new(root),
        ino,
        offset,
    }
}
