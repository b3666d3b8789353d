// The pieces of one file that share a byte with a range.
ghost use Rattle.std.specs.Prelude.{◌≡◌, ◌+◌, ◌*◌, ◌≤◌, ◌<◌, ◌&&◌, ℕ, List, length, Some, IfOk, IfSome, IfNone, nat_lt};
ghost use Rattle.qg_device.specs.Cause.{HasCause};
ghost use Rattle.qg_device.specs.History.{Event, Recorded};
ghost use Rattle.qg_image.specs.declared.file.File.{File as FileValue};
ghost use Rattle.qg_image.specs.FilesOf.{piece_end};
ghost use Rattle.qg_blocks.specs.NodesFound.{BreaksNone};
ghost use Rattle.qg_tree_read.specs.Way.{HasRead, IsReadable};
ghost use Rattle.qg_files.specs.Apart.{AreApart};
ghost use Rattle.qg_inodes.specs.PiecesWritten.{pieces_met};
ghost use Rattle.qg_inodes.specs.Pieces.{BeginsBy, piece_met, pieces_at};
ghost use Rattle.qg_inodes.specs.TreeFiles.{FailsOnPieces, StopsOnPieces, TellsFiles};

use crate::apart::judged;
use crate::item::{add_pieces, own_piece, piece_key};
use qg_blocks::Blocks;
use qg_disk::Disk;
use qg_image::FilePart;
use qg_num::{BlockFault, Ino, NoMemory, Piece, Pieces, Steps};
use qg_tree_read::Tree;
use std::alloc::Global;
use std::sync::ledger::Ledger;

/// The pieces of a file that share a byte with the range from one position up to another, in their order. It takes at
/// most two steps for each level, and again one for each piece, and copies no node.
///
/// The pieces may be edited, over any disk. What does not fit a tree is answered as `Image`, and so are an item of the
/// file that says nothing, with the rule `Item` and the root's address, and pieces that no file has, with the rule
/// `File`.
pub fn pieces_meeting<D: Disk, L: Ledger>(
    tree: &Tree,
    alloc: Global,
    blocks: &mut Blocks,
    disk: &mut D,
    ino: Ino,
    from: u64,
    to: u64,
    reads: &mut Steps<L>,
) -> Result<Pieces, BlockFault>
    requires readable { IsReadable blocks.old (D.history disk.old) (D.size disk.old) }
    ensures found { (files : List (ℕ × FileValue)) → TellsFiles tree.now blocks.old.draft (D.history disk.old) files
        → IfOk result (λ pieces. pieces ≡ pieces_met from to (pieces_at ino files)) }
    ensures sound { (files : List (ℕ × FileValue)) → TellsFiles tree.now blocks.old.draft (D.history disk.old) files
        → BreaksNone result }
    ensures broken { (events : List Event) → D.history disk.old ≡ Recorded events
        → FailsOnPieces tree.now blocks.old.draft events ino result }
    ensures stops { StopsOnPieces result tree.now blocks.old.draft (D.size disk.old) }
    ensures apart { IfOk result (λ pieces. AreApart pieces) }
    ensures readable { IsReadable blocks.new (D.history disk.new) (D.size disk.new) }
    ensures read { HasRead blocks.old blocks.new (D.history disk.old) (D.history disk.new) (D.size disk.old)
        (D.size disk.new) }
    ensures cause { HasCause BlockFault.Disk (D.faults disk.old) (D.faults disk.new) result }
    ensures reads { (files : List (ℕ × FileValue)) → TellsFiles tree.now blocks.old.draft (D.history disk.old) files
        → reads.new ≤ reads.old + (tree.now.height + 1) * (2 + length (pieces_met from to (pieces_at ino files))) }
{
    if to <= from {
        return parted(tree, alloc, blocks, disk, ino, from, to, reads);
    }
    let end = piece_key(ino, to - 1);
    let last = tree.last_to::<FilePart, D, L>(alloc, blocks, disk, end, reads)?;
    let reaching = own_piece(tree, ino, &last)?;
    let Some(piece) = behind(from, &reaching) else {
        let pieces = met(alloc, reaching, from, to)?;
        return judged(tree, pieces);
    };
    let mut pieces = parted(tree, alloc, blocks, disk, ino, from, piece.position, reads)?;
    pieces.push(piece)?;
    judged(tree, pieces)
}

// A piece, where there is one and it begins behind a position.
fn behind(from: u64, piece: &Option<Piece>) -> Option<Piece>
    ensures some { IfSome result (λ found. (piece.now ≡ Some found) × (from < found.position)) }
    ensures none { IfNone result (BeginsBy from piece.now) }
{
    match piece {
        Some(piece) if piece.position > from => Some(*piece),
        _ => None,
    }
}

// The same, in two parts: the last piece that begins at the range's begin or in front of it, and those that begin in
// the range.
fn parted<D: Disk, L: Ledger>(
    tree: &Tree,
    alloc: Global,
    blocks: &mut Blocks,
    disk: &mut D,
    ino: Ino,
    from: u64,
    to: u64,
    reads: &mut Steps<L>,
) -> Result<Pieces, BlockFault>
    requires readable { IsReadable blocks.old (D.history disk.old) (D.size disk.old) }
    ensures found { (files : List (ℕ × FileValue)) → TellsFiles tree.now blocks.old.draft (D.history disk.old) files
        → IfOk result (λ pieces. pieces ≡ pieces_met from to (pieces_at ino files)) }
    ensures sound { (files : List (ℕ × FileValue)) → TellsFiles tree.now blocks.old.draft (D.history disk.old) files
        → BreaksNone result }
    ensures broken { (events : List Event) → D.history disk.old ≡ Recorded events
        → FailsOnPieces tree.now blocks.old.draft events ino result }
    ensures stops { StopsOnPieces result tree.now blocks.old.draft (D.size disk.old) }
    ensures apart { IfOk result (λ pieces. AreApart pieces) }
    ensures readable { IsReadable blocks.new (D.history disk.new) (D.size disk.new) }
    ensures read { HasRead blocks.old blocks.new (D.history disk.old) (D.history disk.new) (D.size disk.old)
        (D.size disk.new) }
    ensures cause { HasCause BlockFault.Disk (D.faults disk.old) (D.faults disk.new) result }
    ensures reads { (files : List (ℕ × FileValue)) → TellsFiles tree.now blocks.old.draft (D.history disk.old) files
        → reads.new ≤ reads.old + (tree.now.height + 1) * (2 + length (pieces_met from to (pieces_at ino files))) }
{
    let last = tree.last_to::<FilePart, D, L>(alloc, blocks, disk, piece_key(ino, from), reads)?;
    let reaching = own_piece(tree, ino, &last)?;
    let mut pieces = met(alloc, reaching, from, to)?;
    if to <= from || to - from == 1 {
        return judged(tree, pieces);
    }
    let first = piece_key(ino, from + 1);
    let end = piece_key(ino, to - 1);
    let items = tree.range::<FilePart, D, L>(alloc, blocks, disk, first, end, reads)?;
    add_pieces(tree, items.as_slice(), &mut pieces)?;
    judged(tree, pieces)
}

// A piece, where there is one and it shares a byte with a range.
fn met(alloc: Global, piece: Option<Piece>, from: u64, to: u64) -> Result<Pieces, NoMemory>
    ensures { IfOk result (λ pieces. pieces ≡ piece_met from to piece) }
{
    let mut pieces = Pieces::new(alloc);
    if let Some(piece) = piece {
        if meets(&piece, from, to) {
            pieces.push(piece)?;
        }
    }
    Ok(pieces)
}

// Whether a piece shares a byte with a range.
fn meets(piece: &Piece, from: u64, to: u64) -> bool
    ensures { result ≡ (nat_lt piece.now.position to && nat_lt from (piece_end piece.now)) }
{
    piece.position < to && (from < piece.position || from - piece.position < piece.len)
}
