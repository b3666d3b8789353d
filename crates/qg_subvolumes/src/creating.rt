// A subvolume that begins without files.
ghost use Rattle.std.specs.Prelude.{◌≡◌, ◌+◌, ◌<◌, ◌≤◌, List, IfOk, IsTrue, not};
ghost use Rattle.qg_device.specs.Cause.{HasCause};
ghost use Rattle.qg_device.specs.History.{Event, Recorded};
ghost use Rattle.qg_node.specs.Fits.{HeaderFits};
ghost use Rattle.qg_node.specs.Nodes.{header_of};
ghost use Rattle.qg_image.specs.ItemMeaning.{is_subvolume_number};
ghost use Rattle.qg_image.specs.State.{State as MachineState, has_subvolume};
ghost use Rattle.qg_machine.specs.Step.{CreatesSubvolume};
ghost use Rattle.qg_machine.specs.Step.{empty_leaf as machine_leaf};
ghost use Rattle.qg_blocks.specs.Stopping.{StopsForCause};
ghost use Rattle.qg_blocks.specs.NodesFound.{BreaksNone};
ghost use Rattle.qg_space.specs.Holding.{free_slots};
ghost use Rattle.qg_tree_edits.specs.Editing.{IsEditable};
ghost use Rattle.qg_node_alloc.specs.Calls.{LeavesBe};
ghost use Rattle.qg_tree_backrefs.specs.Heavier.{node_bytes};
ghost use Rattle.qg_shared_trees.specs.ForestStanding.{HoldsState, tree_of};
ghost use Rattle.qg_subvolumes.specs.Beginning.{BeginsTree};

use crate::sharing::misfit_at;
use qg_disk::Disk;
use qg_node::{Header, Items, Node};
use qg_node_alloc::{Ground, make_node};
use qg_num::{Address, BlockFault, Generation, RootId, Steps};
use qg_tree_backrefs::TreeRefs;
use qg_tree_read::Tree;
use std::alloc::Global;
use std::sync::ledger::Ledger;

/// A new subvolume without files (btrfs-subvolume(8), "create"): an empty leaf in a free slot is its root. Nothing is
/// read.
///
/// `book` is that of the new subvolume, whose number nothing is owed by, and `next` is the generation to come. `Image`
/// comes with `refs` and the leaf's address where something has a reference to it already. After an `Err` nothing of it
/// is of use.
pub fn create<D: Disk, L: Ledger>(
    alloc: Global,
    land: &mut Ground,
    disk: &mut D,
    sub: RootId,
    next: Generation,
    book: &mut TreeRefs,
    reads: &mut Steps<L>,
) -> Result<Tree, BlockFault>
    requires editable { IsEditable land.old (D.history disk.old) (D.size disk.old) next }
    requires number { IsTrue (is_subvolume_number sub) }
    requires book { (book.old.tree ≡ sub) × (book.old.next ≡ next) }
    requires slots { 0 < free_slots land.old.space }

    // Where they hold a state.
    ensures created { (state : MachineState) → HoldsState land.old (D.history disk.old) book.old state
        → IsTrue (not (has_subvolume state sub))
        → IfOk result (λ tree. (after : MachineState) × CreatesSubvolume state sub after
        × HoldsState land.new (D.history disk.new) book.new after × (tree ≡ tree_of after sub)) }
    ensures sound { (state : MachineState) (events : List Event) → D.history disk.old ≡ Recorded events
        → HoldsState land.old (D.history disk.old) book.old state
        → IsTrue (not (has_subvolume state sub)) → BreaksNone result }

    // Over any disk.
    ensures begun { IfOk result (λ tree. BeginsTree land.old land.new book.old book.new node_bytes
        (record { address = tree.address; height = 0; owner = sub; next = next }) tree) }
    ensures rests { LeavesBe land.old land.new (D.history disk.old) (D.history disk.new) (D.size disk.old)
        (D.size disk.new)
        next }
    ensures stops { StopsForCause result land.old.blocks.draft.sizes (D.size disk.old) }
    ensures cause { HasCause BlockFault.Disk (D.faults disk.old) (D.faults disk.new) result }
    ensures reads { reads.new ≤ reads.old + 1 }
{
    let _ascending = book.refs().len();
    let node = empty_leaf(alloc, sub, next);
    let now = make_node(land, disk, book, node, reads)?;
    if let Some(address) = book.misfit() {
        return Err(misfit_at(address));
    }
    let _ascending_still = book.refs().len();
    Ok(Tree::at(now, 0, sub, next))
}

// A leaf without items. The address that it names is set once it has a slot.
fn empty_leaf(alloc: Global, owner: RootId, generation: Generation) -> Node
    ensures leaf { result ≡ (machine_leaf generation owner 0).node }
    ensures fits { HeaderFits (header_of result) }
{
    Node::Leaf {
        header: Header {
            address: Address::new(0),
            generation,
            owner,
            level: 0,
        },
        items: Items::new(alloc),
    }
}
