// A node of a tree that is owned before it is edited.
ghost use Rattle.std.specs.Prelude.{◌≡◌, ◌+◌, ◌<◌, ◌≤◌, false, ℕ, List, ◌++◌, Some, IfOk};
ghost use Rattle.qg_node.specs.declared.node.Node.{Node as NodeValue};
ghost use Rattle.qg_blocks.specs.Stopping.{StopsForCause};
ghost use Rattle.qg_blocks.specs.NodesFound.{told};
ghost use Rattle.qg_space.specs.Holding.{free_slots, is_free_slot};
ghost use Rattle.qg_node_alloc.specs.Tellings.{Telling};
ghost use Rattle.qg_node_alloc.specs.Calls.{KeepsBook, LeavesBe};
ghost use Rattle.qg_tree_edits.specs.Editing.{IsEditable};
ghost use Rattle.qg_tree_edits.specs.Counting.{tellings_owned};
ghost use Rattle.qg_tree_edits.specs.Steps.{FailsToOwn, OwnsNode};

use qg_disk::Disk;
use qg_node_alloc::{Book, Ground, cow_node};
use qg_num::{Address, BlockFault, Steps};
use qg_tree_items::TreePart;
use qg_tree_read::{Tree, Way};
use std::alloc::Global;
use std::sync::ledger::Ledger;

// Owns the node that a way has come to, if it is what the way leads to expect. The answer is where it may be edited.
pub(crate) fn own<P: TreePart, D: Disk, L: Ledger, B: Book<D, L>>(
    tree: &Tree,
    alloc: Global,
    land: &mut Ground,
    disk: &mut D,
    book: &mut B,
    way: &Way,
    reads: &mut Steps<L>,
) -> Result<Address, BlockFault>
    requires editable { IsEditable land.old (D.history disk.old) (D.size disk.old) tree.now.next }
    requires stands { B.stands book.old land.old disk.old }
    requires slots { 0 < free_slots land.old.space }
    ensures owned { OwnsNode P.tree tree.now way.now.expected way.now.address land.old land.new (D.history disk.old)
        result }
    ensures told { (node : NodeValue) → told land.old.blocks.draft (D.history disk.old) way.now.address ≡ Some node
        → is_free_slot land.old.space way.now.address ≡ false → (before : B) (log : List Telling)
        → B.follows before log book.old
        → IfOk result (λ now. B.follows before (log ++ tellings_owned node way.now.address now) book.new) }
    ensures fails { FailsToOwn P.tree tree.now way.now.expected way.now.address land.old land.new (D.history disk.old)
        (D.faults disk.old) (D.faults disk.new) result }
    ensures stops { StopsForCause result land.old.blocks.draft.sizes (D.size disk.old) }
    ensures rests { LeavesBe land.old land.new (D.history disk.old) (D.history disk.new) (D.size disk.old)
        (D.size disk.new) tree.now.next }
    ensures book { KeepsBook B.stands B.settled book.old book.new land.old land.new disk.old disk.new result }
    ensures reads { reads.new + B.spent book.old ≤ reads.old + B.spent book.new + 3 }
{
    tree.visit::<P, D, L>(&mut land.blocks, disk, way, reads)?;
    cow_node(
        alloc,
        land,
        disk,
        book,
        way.address,
        tree.owner(),
        tree.next(),
        reads,
    )
}
