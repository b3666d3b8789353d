// A subvolume that begins as another one is.
ghost use Rattle.std.specs.Prelude.{◌≡◌, ◌+◌, ◌<◌, ◌≤◌, ℕ, List, IfOk, IsTrue, not};
ghost use Rattle.qg_device.specs.Cause.{HasCause};
ghost use Rattle.qg_device.specs.History.{Event, Recorded};
ghost use Rattle.qg_image.specs.ItemMeaning.{is_subvolume_number};
ghost use Rattle.qg_super.specs.Places.{capacity};
ghost use Rattle.qg_image.specs.State.{State as MachineState, has_subvolume};
ghost use Rattle.qg_machine.specs.Step.{Snapshots};
ghost use Rattle.qg_blocks.specs.Stopping.{StopsForCause};
ghost use Rattle.qg_blocks.specs.NodesFound.{BreaksNone};
ghost use Rattle.qg_space.specs.Holding.{free_slots};
ghost use Rattle.qg_tree_edits.specs.Editing.{IsEditable};
ghost use Rattle.qg_node_alloc.specs.Calls.{LeavesBe};
ghost use Rattle.qg_tree_backrefs.specs.Heavier.{node_bytes};
ghost use Rattle.qg_shared_trees.specs.ForestStanding.{HoldsState, tree_of};
ghost use Rattle.qg_subvolumes.specs.Beginning.{BeginsTree};

use crate::copying::copy_node;
use crate::sharing::{give_all, keyed_children, misfit_at};
use qg_disk::Disk;
use qg_image::FilePart;
use qg_node_alloc::{Ground, make_node};
use qg_num::{BlockFault, RootId, Steps};
use qg_tree_backrefs::TreeRefs;
use qg_tree_read::Tree;
use std::alloc::Global;
use std::sync::ledger::Ledger;

/// A subvolume that begins as `source` is (btrfs-subvolume(8), "snapshot"): the source's root node is copied to a free
/// slot, with the new subvolume as owner, and each child gets a keyed reference of the new subvolume. Nothing below is
/// read.
///
/// `book` is that of the new subvolume, whose number nothing is owed by. `Image` comes where the source's root is not
/// what is expected of it, and with `refs` where a child has no reference, or the new one already. After an `Err`
/// nothing of it is of use.
pub fn snapshot<D: Disk, L: Ledger>(
    alloc: Global,
    land: &mut Ground,
    disk: &mut D,
    source: &Tree,
    copy: RootId,
    book: &mut TreeRefs,
    reads: &mut Steps<L>,
) -> Result<Tree, BlockFault>
    requires editable { IsEditable land.old (D.history disk.old) (D.size disk.old) source.now.next }
    requires number { IsTrue (is_subvolume_number copy) }
    requires book { book.old.tree ≡ copy }
    requires slots { 0 < free_slots land.old.space }

    // Where they hold a state.
    ensures copied { (state : MachineState) (parents : List ℕ) → HoldsState land.old (D.history disk.old) book.old state
        → IsTrue (has_subvolume state source.now.owner) → source.now ≡ tree_of state source.now.owner
        → IsTrue (not (has_subvolume state copy))
        → IfOk result (λ tree. (after : MachineState) × Snapshots state source.now.owner parents copy after
        × HoldsState land.new (D.history disk.new) book.new after × (tree ≡ tree_of after copy)) }
    ensures sound { (state : MachineState) (events : List Event) → D.history disk.old ≡ Recorded events
        → HoldsState land.old (D.history disk.old) book.old state
        → IsTrue (has_subvolume state source.now.owner) → source.now ≡ tree_of state source.now.owner
        → IsTrue (not (has_subvolume state copy)) → BreaksNone result }

    // Over any disk.
    ensures begun { IfOk result (λ tree. BeginsTree land.old land.new book.old book.new
        (node_bytes + capacity land.old.space.sizes.nodesize)
        (record source.now { address = tree.address; owner = copy }) tree) }
    ensures rests { LeavesBe land.old land.new (D.history disk.old) (D.history disk.new) (D.size disk.old)
        (D.size disk.new)
        source.now.next }
    ensures stops { StopsForCause result land.old.blocks.draft.sizes (D.size disk.old) }
    ensures cause { HasCause BlockFault.Disk (D.faults disk.old) (D.faults disk.new) result }
    ensures reads { reads.new ≤ reads.old + 2 }
{
    let _ascending = book.refs().len();
    let way = source.way();
    source.visit::<FilePart, D, L>(&mut land.blocks, disk, &way, reads)?;
    let root = land.blocks.peek(way.address);
    let children = keyed_children(alloc, root, copy)?;
    let node = copy_node(alloc, root, copy, source.next())?;
    let now = make_node(land, disk, book, node, reads)?;
    if let Some(address) = book.misfit() {
        return Err(misfit_at(address));
    }
    give_all(book, children.as_slice())?;
    let _ascending_still = book.refs().len();
    Ok(Tree::at(now, source.height(), copy, source.next()))
}
