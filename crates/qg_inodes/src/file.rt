// One file with its pieces.
ghost use Rattle.std.specs.Prelude.{◌≡◌, ◌+◌, ◌*◌, ◌≤◌, ℕ, List, length, IfOk, IfSome};
ghost use Rattle.qg_device.specs.Cause.{HasCause};
ghost use Rattle.qg_device.specs.History.{Event, Recorded};
ghost use Rattle.qg_image.specs.declared.file.File.{File as FileValue};
ghost use Rattle.qg_image.specs.Table.{value_at};
ghost use Rattle.qg_blocks.specs.NodesFound.{BreaksNone};
ghost use Rattle.qg_tree_read.specs.Way.{HasRead, IsReadable};
ghost use Rattle.qg_files.specs.Apart.{AreApart};
ghost use Rattle.qg_inodes.specs.Pieces.{pieces_at};
ghost use Rattle.qg_inodes.specs.TreeFiles.{FailsOnPieces, StopsOnPieces, TellsFiles};

use crate::inode::inode_of;
use crate::pieces::pieces_meeting;
use qg_blocks::Blocks;
use qg_disk::Disk;
use qg_image::File;
use qg_num::{BlockFault, Ino, Steps};
use qg_tree_items::LARGEST_SIZE;
use qg_tree_read::Tree;
use std::alloc::Global;
use std::sync::ledger::Ledger;

/// A file with all its pieces; none exactly where there is none of that number. It takes at most three steps for each
/// level, and again one for each piece, and copies no node.
///
/// The pieces may be edited, over any disk. What does not fit a tree is answered as `Image`, and so are an item of the
/// file that says nothing, with the rule `Item` and the root's address, and pieces that no file has, with the rule
/// `File`.
pub fn file_of<D: Disk, L: Ledger>(
    tree: &Tree,
    alloc: Global,
    blocks: &mut Blocks,
    disk: &mut D,
    ino: Ino,
    reads: &mut Steps<L>,
) -> Result<Option<File>, BlockFault>
    requires readable { IsReadable blocks.old (D.history disk.old) (D.size disk.old) }
    ensures found { (files : List (ℕ × FileValue)) → TellsFiles tree.now blocks.old.draft (D.history disk.old) files
        → IfOk result (λ file. file ≡ value_at ino files) }
    ensures sound { (files : List (ℕ × FileValue)) → TellsFiles tree.now blocks.old.draft (D.history disk.old) files
        → BreaksNone result }
    ensures broken { (events : List Event) → D.history disk.old ≡ Recorded events
        → FailsOnPieces tree.now blocks.old.draft events ino result }
    ensures stops { StopsOnPieces result tree.now blocks.old.draft (D.size disk.old) }
    ensures apart { IfOk result (λ file. IfSome file (λ file. AreApart file.pieces)) }
    ensures readable { IsReadable blocks.new (D.history disk.new) (D.size disk.new) }
    ensures read { HasRead blocks.old blocks.new (D.history disk.old) (D.history disk.new) (D.size disk.old)
        (D.size disk.new) }
    ensures cause { HasCause BlockFault.Disk (D.faults disk.old) (D.faults disk.new) result }
    ensures reads { (files : List (ℕ × FileValue)) → TellsFiles tree.now blocks.old.draft (D.history disk.old) files
        → reads.new ≤ reads.old + (tree.now.height + 1) * (3 + length (pieces_at ino files)) }
{
    let Some(inode) = inode_of(tree, alloc, blocks, disk, ino, reads)? else {
        return Ok(None);
    };
    let pieces = pieces_meeting(tree, alloc, blocks, disk, ino, 0, LARGEST_SIZE, reads)?;
    Ok(Some(File {
        size: inode.size,
        generation: inode.generation,
        transid: inode.transid,
        pieces,
    }))
}
