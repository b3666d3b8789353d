// The INODE_ITEM of one file.
ghost use Rattle.std.specs.Prelude.{◌≡◌, ◌+◌, ◌≤◌, ℕ, List, IfOk};
ghost use Rattle.std.specs.Option.{option_map};
ghost use Rattle.qg_device.specs.Cause.{HasCause};
ghost use Rattle.qg_device.specs.History.{Event, Recorded};
ghost use Rattle.qg_image.specs.declared.file.File.{File as FileValue};
ghost use Rattle.qg_image.specs.Table.{value_at};
ghost use Rattle.qg_root_items.specs.Written.{inode_of};
ghost use Rattle.qg_blocks.specs.NodesFound.{BreaksNone};
ghost use Rattle.qg_tree_read.specs.Way.{HasRead, IsReadable};
ghost use Rattle.qg_inodes.specs.TreeFiles.{FailsOnFile, StopsOnPieces, TellsFiles};

use crate::item::{inode_key, unread};
use qg_blocks::Blocks;
use qg_disk::Disk;
use qg_image::FilePart;
use qg_items::{InodeItem, read_inode};
use qg_num::{BlockFault, Ino, Steps};
use qg_tree_read::Tree;
use std::alloc::Global;
use std::sync::ledger::Ledger;

/// The INODE_ITEM of a file; none exactly where there is no such file. It takes at most a step for each level, and
/// copies no node.
///
/// What does not fit a tree is answered as `Image`, and so is an item of the file that says nothing: with the rule
/// `Item` and the root's address.
pub fn inode_of<D: Disk, L: Ledger>(
    tree: &Tree,
    alloc: Global,
    blocks: &mut Blocks,
    disk: &mut D,
    ino: Ino,
    reads: &mut Steps<L>,
) -> Result<Option<InodeItem>, BlockFault>
    requires readable { IsReadable blocks.old (D.history disk.old) (D.size disk.old) }
    ensures found { (files : List (ℕ × FileValue)) → TellsFiles tree.now blocks.old.draft (D.history disk.old) files
        → IfOk result (λ inode. inode ≡ option_map inode_of (value_at ino files)) }
    ensures sound { (files : List (ℕ × FileValue)) → TellsFiles tree.now blocks.old.draft (D.history disk.old) files
        → BreaksNone result }
    ensures broken { (events : List Event) → D.history disk.old ≡ Recorded events
        → FailsOnFile tree.now blocks.old.draft events ino result }
    ensures stops { StopsOnPieces result tree.now blocks.old.draft (D.size disk.old) }
    ensures readable { IsReadable blocks.new (D.history disk.new) (D.size disk.new) }
    ensures read { HasRead blocks.old blocks.new (D.history disk.old) (D.history disk.new) (D.size disk.old)
        (D.size disk.new) }
    ensures cause { HasCause BlockFault.Disk (D.faults disk.old) (D.faults disk.new) result }
    ensures reads { reads.new ≤ reads.old + tree.now.height + 1 }
{
    let key = inode_key(ino);
    let Some(body) = tree.get::<FilePart, D, L>(alloc, blocks, disk, key, reads)? else {
        return Ok(None);
    };
    match read_inode(body.as_slice()) {
        Some(inode) => Ok(Some(inode)),
        None => Err(unread(tree)),
    }
}
