// Items of a file are put in, replaced and taken out, one after the other.
ghost use Rattle.std.specs.Prelude.{ℕ, ◌≤◌, List, OnOk, IsTrue, length, not};
ghost use Rattle.std.specs.List.{filter_map};
ghost use Rattle.qg_device.specs.Cause.{HasCause};
ghost use Rattle.qg_num.specs.declared.piece.Piece.{Piece as PieceValue};
ghost use Rattle.qg_node.specs.declared.item.Item.{Item as ItemValue};
ghost use Rattle.qg_blocks.specs.Stopping.{StopsForCause};
ghost use Rattle.qg_edit.specs.Edits.{has_key, with_item, without_key};
ghost use Rattle.qg_file_edits.specs.Applying.{Applies, CanApply, after_step, after_steps};
ghost use Rattle.qg_shared_trees.specs.Standing.{IsSubvolume, Stands, name_told};
ghost use Rattle.qg_file_edits.specs.Editing.{AreMade, CanEditInode, after_inode};
ghost use Rattle.qg_file_edits.specs.Exchanging.{AreCoveredThroughout};
ghost use Rattle.qg_file_edits.specs.Files.{LeavesHeld, StaysOwn};
ghost use Rattle.qg_file_edits.specs.Naming.{AreCovered};

use crate::Step;
use crate::inode::InodeEdit;
use crate::texts::{inode_bytes, piece_bytes};
use qg_disk::Disk;
use qg_inodes::{inode_key, piece_key};
use qg_node::Body;
use qg_num::{BlockFault, Ino, Key, Steps};
use qg_shared_trees::fs_tree::FsTree;
use std::alloc::Global;
use std::sync::ledger::Ledger;

/// Puts an item in its place. Its key must not be there, and a piece that it tells is named.
fn put_new<D: Disk, L: Ledger>(
    fs: &mut FsTree,
    alloc: Global,
    disk: &mut D,
    key: Key,
    bytes: &[u8],
    reads: &mut Steps<L>,
) -> Result<(), BlockFault>
    requires subvolume { IsSubvolume fs.old (D.history disk.old) (D.size disk.old) }
    requires short { length bytes.now ≤ 1024 }
    ensures told { (items : List ItemValue) (names : List (ℕ × PieceValue))
        → Stands fs.old (D.history disk.old) items names → IsTrue (not (has_key key items))
        → AreCovered fs.old.tree.owner
        (filter_map name_told (with_item (record { key = key; body = bytes.now }) items)) names
        → AreMade 1 0 fs.old fs.new (D.history disk.old) (with_item (record { key = key; body = bytes.now }) items)
        names
        reads.old reads.new result }
    ensures leaves { LeavesHeld fs.old fs.new (D.history disk.old) (D.history disk.new) (D.size disk.old)
        (D.size disk.new) }
    ensures stops { StopsForCause result fs.old.land.blocks.draft.sizes (D.size disk.old) }
    ensures own { OnOk result (StaysOwn fs.old fs.new) }
    ensures cause { HasCause BlockFault.Disk (D.faults disk.old) (D.faults disk.new) result }
{
    let body = Body::from_slice(alloc, bytes)?;
    fs.insert(alloc, disk, key, body, reads)
}

/// Gives the item with a key another body. The key must be there, and a piece that the body tells is named.
fn put_again<D: Disk, L: Ledger>(
    fs: &mut FsTree,
    alloc: Global,
    disk: &mut D,
    key: Key,
    bytes: &[u8],
    reads: &mut Steps<L>,
) -> Result<(), BlockFault>
    requires subvolume { IsSubvolume fs.old (D.history disk.old) (D.size disk.old) }
    requires short { length bytes.now ≤ 1024 }
    ensures told { (items : List ItemValue) (names : List (ℕ × PieceValue))
        → Stands fs.old (D.history disk.old) items names → IsTrue (has_key key items)
        → AreCovered fs.old.tree.owner
        (filter_map name_told (with_item (record { key = key; body = bytes.now }) items)) names
        → AreMade 1 0 fs.old fs.new (D.history disk.old) (with_item (record { key = key; body = bytes.now }) items)
        names
        reads.old reads.new result }
    ensures leaves { LeavesHeld fs.old fs.new (D.history disk.old) (D.history disk.new) (D.size disk.old)
        (D.size disk.new) }
    ensures stops { StopsForCause result fs.old.land.blocks.draft.sizes (D.size disk.old) }
    ensures own { OnOk result (StaysOwn fs.old fs.new) }
    ensures cause { HasCause BlockFault.Disk (D.faults disk.old) (D.faults disk.new) result }
{
    let body = Body::from_slice(alloc, bytes)?;
    fs.replace(alloc, disk, key, body, reads)
}

/// Takes out the item with a key. The key must be there.
fn take_out<D: Disk, L: Ledger>(
    fs: &mut FsTree,
    alloc: Global,
    disk: &mut D,
    key: Key,
    reads: &mut Steps<L>,
) -> Result<(), BlockFault>
    requires { IsSubvolume fs.old (D.history disk.old) (D.size disk.old) }
    ensures told { (items : List ItemValue) (names : List (ℕ × PieceValue))
        → Stands fs.old (D.history disk.old) items names → IsTrue (has_key key items)
        → AreMade 1 0 fs.old fs.new (D.history disk.old) (without_key key items) names reads.old reads.new result }
    ensures leaves { LeavesHeld fs.old fs.new (D.history disk.old) (D.history disk.new) (D.size disk.old)
        (D.size disk.new) }
    ensures stops { StopsForCause result fs.old.land.blocks.draft.sizes (D.size disk.old) }
    ensures own { OnOk result (StaysOwn fs.old fs.new) }
    ensures cause { HasCause BlockFault.Disk (D.faults disk.old) (D.faults disk.new) result }
{
    fs.remove(alloc, disk, key, reads)
}

/// Makes one step on a file's items.
fn take_step<D: Disk, L: Ledger>(
    fs: &mut FsTree,
    alloc: Global,
    disk: &mut D,
    ino: Ino,
    step: Step,
    reads: &mut Steps<L>,
) -> Result<(), BlockFault>
    requires { IsSubvolume fs.old (D.history disk.old) (D.size disk.old) }
    ensures told { (items : List ItemValue) (names : List (ℕ × PieceValue))
        → Stands fs.old (D.history disk.old) items names → CanApply ino step items
        → AreCovered fs.old.tree.owner (filter_map name_told (after_step ino step items)) names
        → AreMade 1 0 fs.old fs.new (D.history disk.old) (after_step ino step items) names reads.old reads.new result }
    ensures leaves { LeavesHeld fs.old fs.new (D.history disk.old) (D.history disk.new) (D.size disk.old)
        (D.size disk.new) }
    ensures stops { StopsForCause result fs.old.land.blocks.draft.sizes (D.size disk.old) }
    ensures own { OnOk result (StaysOwn fs.old fs.new) }
    ensures cause { HasCause BlockFault.Disk (D.faults disk.old) (D.faults disk.new) result }
{
    match step {
        Step::Remove(position) => take_out(fs, alloc, disk, piece_key(ino, position), reads),
        Step::Insert(piece) => {
            let key = piece_key(ino, piece.position);
            let bytes = piece_bytes(&piece);
            put_new(fs, alloc, disk, key, &bytes, reads)
        }
        Step::Replace(piece) => {
            let there = piece_key(ino, piece.position);
            let text = piece_bytes(&piece);
            put_again(fs, alloc, disk, there, &text, reads)
        }
    }
}

/// Makes steps on a file's items, one after the other.
pub(crate) fn take_steps<D: Disk, L: Ledger>(
    fs: &mut FsTree,
    alloc: Global,
    disk: &mut D,
    ino: Ino,
    steps: &[Step],
    reads: &mut Steps<L>,
) -> Result<(), BlockFault>
    requires { IsSubvolume fs.old (D.history disk.old) (D.size disk.old) }
    ensures told { (items : List ItemValue) (names : List (ℕ × PieceValue))
        → Stands fs.old (D.history disk.old) items names → Applies ino steps.now items
        → AreCoveredThroughout fs.old.tree.owner ino steps.now items names
        → AreMade (length steps.now) 0 fs.old fs.new (D.history disk.old) (after_steps ino steps.now items) names
        reads.old reads.new result }
    ensures leaves { LeavesHeld fs.old fs.new (D.history disk.old) (D.history disk.new) (D.size disk.old)
        (D.size disk.new) }
    ensures stops { StopsForCause result fs.old.land.blocks.draft.sizes (D.size disk.old) }
    ensures own { OnOk result (StaysOwn fs.old fs.new) }
    ensures cause { HasCause BlockFault.Disk (D.faults disk.old) (D.faults disk.new) result }
{
    for step in steps {
        take_step(fs, alloc, disk, ino, *step, reads)?;
    }
    Ok(())
}

/// Edits a file's INODE_ITEM.
pub(crate) fn edit_inode<D: Disk, L: Ledger>(
    fs: &mut FsTree,
    alloc: Global,
    disk: &mut D,
    ino: Ino,
    edit: InodeEdit,
    reads: &mut Steps<L>,
) -> Result<(), BlockFault>
    requires { IsSubvolume fs.old (D.history disk.old) (D.size disk.old) }
    ensures told { (items : List ItemValue) (names : List (ℕ × PieceValue))
        → Stands fs.old (D.history disk.old) items names → CanEditInode ino edit items
        → AreCovered fs.old.tree.owner (filter_map name_told (after_inode ino edit items)) names
        → AreMade 1 0 fs.old fs.new (D.history disk.old) (after_inode ino edit items) names reads.old reads.new result }
    ensures leaves { LeavesHeld fs.old fs.new (D.history disk.old) (D.history disk.new) (D.size disk.old)
        (D.size disk.new) }
    ensures stops { StopsForCause result fs.old.land.blocks.draft.sizes (D.size disk.old) }
    ensures own { OnOk result (StaysOwn fs.old fs.new) }
    ensures cause { HasCause BlockFault.Disk (D.faults disk.old) (D.faults disk.new) result }
{
    let key = inode_key(ino);
    match edit {
        InodeEdit::Remove => take_out(fs, alloc, disk, key, reads),
        InodeEdit::Insert(inode) => {
            let bytes = inode_bytes(&inode);
            put_new(fs, alloc, disk, key, &bytes, reads)
        }
        InodeEdit::Replace(inode) => {
            let text = inode_bytes(&inode);
            put_again(fs, alloc, disk, key, &text, reads)
        }
    }
}
