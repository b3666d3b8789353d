// Pieces of a file come in the place of others, and its INODE_ITEM follows.
ghost use Rattle.std.specs.Prelude.{◌++◌, ◌*◌, ℕ, List, OnOk, IsErrOf, length};
ghost use Rattle.std.specs.List.{flat_map};
ghost use Rattle.std.specs.Option.{option_to_list};
ghost use Rattle.qg_device.specs.Cause.{HasCause};
ghost use Rattle.qg_device.specs.History.{History};
ghost use Rattle.qg_num.specs.declared.piece.Piece.{Piece as PieceValue};
ghost use Rattle.qg_num.specs.declared.rule.Rule.TheVariants.{Refs};
ghost use Rattle.qg_node.specs.declared.item.Item.{Item as ItemValue};
ghost use Rattle.qg_blocks.specs.Stopping.{NamesRule, StopsForCause};
ghost use Rattle.qg_image.specs.declared.file.File.{File as FileValue};
ghost use Rattle.qg_root_items.specs.Written.{items_of_file};
ghost use Rattle.qg_file_edits.specs.Named.{named, names_of};
ghost use Rattle.qg_extents.specs.Table.{IsTable};
ghost use Rattle.qg_shared_trees.specs.Heavier.{BookGetsHeavier, name_new_bytes};
ghost use Rattle.qg_shared_trees.specs.Standing.{IsSubvolume, Stands, names_elsewhere};
ghost use Rattle.qg_files.specs.Apart.{AreApart};
ghost use Rattle.qg_file_edits.specs.Editing.{AreMade};
ghost use Rattle.qg_file_edits.specs.Exchanging.{CanEditSo, CoversExchange, IsReadyFor, MakesFiles, after_exchange};
ghost use Rattle.qg_file_edits.specs.Files.{LeavesHeld, StaysOwn};
ghost use Rattle.qg_file_edits.specs.Naming.{AreFewNames, AreNamed, AreOfNamed, KeepsNodes};

use crate::editing::{edit_inode, take_steps};
use crate::inode::InodeEdit;
use crate::naming::{name_each, name_new, unname_each};
use crate::steps_between;
use qg_disk::Disk;
use qg_num::{BlockFault, Ino, Piece, Pieces, Steps};
use qg_shared_trees::fs_tree::FsTree;
use std::alloc::Global;
use std::sync::ledger::Ledger;

/// Pieces of a file that come in the place of others (this project's own).
#[derive(Drop)]
pub struct Exchange {
    /// Those that go.
    pub gone: Pieces,
    /// Those that come, ascending.
    pub put: Pieces,
    /// Those of them whose extents are named already.
    pub named: Pieces,
    /// The one of them that has a new extent.
    pub new: Option<Piece>,
    /// What becomes of the file's INODE_ITEM.
    pub inode: InodeEdit,
}

/// Pieces of a file come in the place of others in a subvolume's tree, and name their extents, which this tree or
/// another names already, or a new one; those that go name theirs no more.
pub(crate) fn make_exchange<D: Disk, L: Ledger>(
    fs: &mut FsTree,
    alloc: Global,
    disk: &mut D,
    ino: Ino,
    change: &Exchange,
    reads: &mut Steps<L>,
) -> Result<(), BlockFault>
    requires subvolume { IsSubvolume fs.old (D.history disk.old) (D.size disk.old) }
    requires ready { IsReadyFor fs.old.land.space change.now }
    ensures told { (edits : ℕ) (files files_new : List (ℕ × FileValue))
        → Stands fs.old (D.history disk.old) (flat_map items_of_file files) (named files)
        → MakesFiles edits fs.old.tree.owner ino change.now (names_elsewhere fs.old (D.history disk.old)) files
        files_new
        → AreMade edits (length (change.now.named ++ option_to_list change.now.new)) fs.old fs.new (D.history disk.old)
        (flat_map items_of_file files_new) (named files_new)
        reads.old reads.new result }
    ensures table { IsTable fs.old.refs.refs }
    ensures still { OnOk result (IsTable fs.new.refs.refs) }
    ensures leaves { LeavesHeld fs.old fs.new (D.history disk.old) (D.history disk.new) (D.size disk.old)
        (D.size disk.new) }
    ensures stops { StopsForCause result fs.old.land.blocks.draft.sizes (D.size disk.old) }
    ensures own { OnOk result (StaysOwn fs.old fs.new) }
    ensures cause { HasCause BlockFault.Disk (D.faults disk.old) (D.faults disk.new) result }
{
    let _ascending = fs.refs.refs().len();
    name_those_put(fs, ino, change)?;
    edit_items(fs, alloc, disk, ino, change, reads)?;
    let unnamed = unname_each(fs, ino, change.gone.as_slice());
    let _ascending_still = fs.refs.refs().len();
    unnamed
}

/// The pieces that come name their extents.
fn name_those_put(fs: &mut FsTree, ino: Ino, change: &Exchange) -> Result<(), BlockFault>
    requires { IsReadyFor fs.old.land.space change.now }
    ensures named { (history : History) (bytes : ℕ) (items : List ItemValue) (names : List (ℕ × PieceValue))
        → IsSubvolume fs.old history bytes → Stands fs.old history items names
        → AreOfNamed (names ++ names_elsewhere fs.old history) change.now.named
        → AreFewNames fs.old.tree.owner (names_of ino (change.now.named ++ option_to_list change.now.new) ++ names)
        → AreNamed fs.old fs.new history items (names_of ino (change.now.named ++ option_to_list change.now.new)
        ++ names) result }
    ensures nodes { KeepsNodes fs.old fs.new }
    ensures heavier { OnOk result (BookGetsHeavier fs.old.refs fs.new.refs
        (length (change.now.named ++ option_to_list change.now.new) * name_new_bytes)) }
    ensures fault { IsErrOf result BlockFault.Disk → ⊥ }
    ensures refs { NamesRule result Refs }
{
    name_new(fs, ino, change.new)?;
    name_each(fs, ino, change.named.as_slice())
}

/// The items of pieces that go are taken out, and those of pieces that come put in; then the INODE_ITEM follows.
fn edit_items<D: Disk, L: Ledger>(
    fs: &mut FsTree,
    alloc: Global,
    disk: &mut D,
    ino: Ino,
    change: &Exchange,
    reads: &mut Steps<L>,
) -> Result<(), BlockFault>
    requires subvolume { IsSubvolume fs.old (D.history disk.old) (D.size disk.old) }
    requires gone { AreApart change.now.gone }
    requires put { AreApart change.now.put }
    ensures told { (edits : ℕ) (items : List ItemValue) (names : List (ℕ × PieceValue))
        → Stands fs.old (D.history disk.old) items names → CanEditSo edits ino change.now items
        → CoversExchange fs.old.tree.owner ino change.now items names
        → AreMade edits 0 fs.old fs.new (D.history disk.old) (after_exchange ino change.now items) names reads.old
        reads.new result }
    ensures leaves { LeavesHeld fs.old fs.new (D.history disk.old) (D.history disk.new) (D.size disk.old)
        (D.size disk.new) }
    ensures stops { StopsForCause result fs.old.land.blocks.draft.sizes (D.size disk.old) }
    ensures own { OnOk result (StaysOwn fs.old fs.new) }
    ensures cause { HasCause BlockFault.Disk (D.faults disk.old) (D.faults disk.new) result }
{
    let steps = steps_between(&change.gone, &change.put)?;
    take_steps(fs, alloc, disk, ino, steps.as_slice(), reads)?;
    edit_inode(fs, alloc, disk, ino, change.inode, reads)
}
