// What a command reads of a file.
ghost use Rattle.std.specs.Prelude.{◌≡◌, ◌+◌, ◌*◌, ◌≤◌, ℕ, List, IfOk};
ghost use Rattle.std.specs.Option.{option_map};
ghost use Rattle.qg_device.specs.Cause.{HasCause};
ghost use Rattle.qg_image.specs.declared.file.File.{File as FileValue};
ghost use Rattle.qg_image.specs.Table.{value_at};
ghost use Rattle.qg_machine.specs.FileChange.{pieces_meeting};
ghost use Rattle.qg_root_items.specs.Written.{inode_of};
ghost use Rattle.qg_blocks.specs.Stopping.{StopsForCause};
ghost use Rattle.qg_blocks.specs.NodesFound.{BreaksNone};
ghost use Rattle.qg_files.specs.Apart.{AreApart};
ghost use Rattle.qg_inodes.specs.PiecesWritten.{pieces_met};
ghost use Rattle.qg_open_image.specs.Files.{Finds, HoldsFiles, pieces_of};
ghost use Rattle.qg_open_image.specs.Editing.{HasReadNodes};
ghost use Rattle.qg_open_image.specs.Keeping.{IsKept};

use qg_disk::Disk;
use qg_items::InodeItem;
use qg_num::{BlockFault, Ino, Pieces, Steps};
use qg_open_image::OpenImage;
use qg_open_image::file_edits::Found;
use qg_open_image::inodes::{inode_of, pieces_meeting};
use std::sync::ledger::Ledger;

/// The INODE_ITEM of a file; none exactly where there is no such file. `Image` comes only where the tree has the items
/// of no files. Where it has them, no more nodes are asked for than a tree has levels at most.
pub(crate) fn inode_in<D: Disk, L: Ledger>(
    kept: &mut OpenImage,
    disk: &mut D,
    ino: Ino,
    reads: &mut Steps<L>,
) -> Result<Option<InodeItem>, BlockFault>
    requires kept { IsKept kept.old (D.history disk.old) (D.size disk.old) }
    ensures found { (files : List (ℕ × FileValue)) → HoldsFiles kept.old.fs (D.history disk.old) files
        → IfOk result (λ inode. inode ≡ option_map inode_of (value_at ino files)) }
    ensures sound { (files : List (ℕ × FileValue)) → HoldsFiles kept.old.fs (D.history disk.old) files
        → BreaksNone result }
    ensures reads { (files : List (ℕ × FileValue)) → HoldsFiles kept.old.fs (D.history disk.old) files
        → reads.new ≤ reads.old + 8 }
    ensures kept { IsKept kept.new (D.history disk.new) (D.size disk.new) }
    ensures looked { HasReadNodes kept.old kept.new (D.history disk.old) (D.history disk.new) (D.size disk.old)
        (D.size disk.new) }
    ensures stops { StopsForCause result kept.old.fs.land.blocks.draft.sizes (D.size disk.old) }
    ensures cause { HasCause BlockFault.Disk (D.faults disk.old) (D.faults disk.new) result }
{
    inode_of(
        &kept.fs.tree,
        kept.alloc,
        &mut kept.fs.land.blocks,
        disk,
        ino,
        reads,
    )
}

/// The pieces of a file that share a byte with the range from one position up to another, in bytes. Else as
/// [`inode_in`].
pub(crate) fn pieces_in<D: Disk, L: Ledger>(
    kept: &mut OpenImage,
    disk: &mut D,
    ino: Ino,
    from: u64,
    to: u64,
    reads: &mut Steps<L>,
) -> Result<Pieces, BlockFault>
    requires kept { IsKept kept.old (D.history disk.old) (D.size disk.old) }
    ensures found { (files : List (ℕ × FileValue)) → HoldsFiles kept.old.fs (D.history disk.old) files
        → IfOk result (λ pieces. pieces ≡ pieces_met from to (pieces_of ino files)) }
    ensures sound { (files : List (ℕ × FileValue)) → HoldsFiles kept.old.fs (D.history disk.old) files
        → BreaksNone result }
    ensures reads { (files : List (ℕ × FileValue)) → HoldsFiles kept.old.fs (D.history disk.old) files
        → reads.new ≤ reads.old + 8 * (pieces_meeting from to (pieces_of ino files) + 2) }
    ensures apart { IfOk result (λ pieces. AreApart pieces) }
    ensures kept { IsKept kept.new (D.history disk.new) (D.size disk.new) }
    ensures looked { HasReadNodes kept.old kept.new (D.history disk.old) (D.history disk.new) (D.size disk.old)
        (D.size disk.new) }
    ensures stops { StopsForCause result kept.old.fs.land.blocks.draft.sizes (D.size disk.old) }
    ensures cause { HasCause BlockFault.Disk (D.faults disk.old) (D.faults disk.new) result }
{
    pieces_meeting(
        &kept.fs.tree,
        kept.alloc,
        &mut kept.fs.land.blocks,
        disk,
        ino,
        from,
        to,
        reads,
    )
}

/// What an edit of a range, in bytes, is to know of a file: its INODE_ITEM, and the pieces that the range meets. Else
/// as [`inode_in`].
pub(crate) fn found_in<D: Disk, L: Ledger>(
    kept: &mut OpenImage,
    disk: &mut D,
    ino: Ino,
    from: u64,
    to: u64,
    reads: &mut Steps<L>,
) -> Result<Found, BlockFault>
    requires kept { IsKept kept.old (D.history disk.old) (D.size disk.old) }
    ensures found { (files : List (ℕ × FileValue)) → HoldsFiles kept.old.fs (D.history disk.old) files
        → IfOk result (λ found. Finds files ino from to found) }
    ensures sound { (files : List (ℕ × FileValue)) → HoldsFiles kept.old.fs (D.history disk.old) files
        → BreaksNone result }
    ensures reads { (files : List (ℕ × FileValue)) → HoldsFiles kept.old.fs (D.history disk.old) files
        → reads.new ≤ reads.old + 8 * (pieces_meeting from to (pieces_of ino files) + 3) }
    ensures apart { IfOk result (λ found. AreApart found.met) }
    ensures kept { IsKept kept.new (D.history disk.new) (D.size disk.new) }
    ensures looked { HasReadNodes kept.old kept.new (D.history disk.old) (D.history disk.new) (D.size disk.old)
        (D.size disk.new) }
    ensures stops { StopsForCause result kept.old.fs.land.blocks.draft.sizes (D.size disk.old) }
    ensures cause { HasCause BlockFault.Disk (D.faults disk.old) (D.faults disk.new) result }
{
    let inode = inode_in(kept, disk, ino, reads)?;
    let met = pieces_in(kept, disk, ino, from, to, reads)?;
    Ok(Found { inode, met })
}
