// Nodes that a tree makes, and nodes that it leaves.
ghost use Rattle.std.specs.Prelude.{◌≡◌, ◌+◌, ◌≤◌, ℕ, List, [], ◌∷◌, ◌++◌, Some, IfOk, OnOk};
ghost use Rattle.qg_node.specs.declared.node.Node.{Node as NodeValue};
ghost use Rattle.qg_node.specs.Nodes.{header_of};
ghost use Rattle.qg_node.specs.NodeText.{IsNode};
ghost use Rattle.qg_blocks.specs.NodesFound.{IsBacked, told};
ghost use Rattle.qg_blocks.specs.Stopping.{StopsForCause};
ghost use Rattle.qg_node_alloc.specs.Calls.{CanTakeSlot, FailsByDisk, FailsToRead, KeepsBook, LeavesBe};
ghost use Rattle.qg_node_alloc.specs.Land.{IsDrafted, Rests};
ghost use Rattle.qg_node_alloc.specs.Changes.{Makes, Takes};
ghost use Rattle.qg_node_alloc.specs.declared.ground.Ground.{Ground as Land};
ghost use Rattle.qg_node_alloc.specs.Tellings.{Telling, Empties, LetsGo};
ghost use Rattle.qg_node_alloc.specs.Tellings.Telling.{Made, Left};

use crate::putting::put_node;
use crate::{Book, Ground};
use qg_disk::Disk;
use qg_node::Node;
use qg_num::{Address, BlockFault, Steps};
use std::sync::ledger::Ledger;

/// Puts a new node into a free slot, whatever address it names, and tells the book. The answer is its address, in
/// bytes. The node has a text, and the generation to come.
pub fn make_node<D: Disk, L: Ledger, B: Book<D, L>>(
    land: &mut Ground,
    disk: &mut D,
    book: &mut B,
    node: Node,
    reads: &mut Steps<L>,
) -> Result<Address, BlockFault>
    requires ready { CanTakeSlot land.old (D.history disk.old) (header_of node).generation }
    requires sound { IsNode land.old.space.sizes.nodesize node }
    requires stands { B.stands book.old land.old disk.old }
    ensures made { IfOk result (λ now. Makes land.old land.new now node) }
    ensures takes { OnOk result (Takes 1 (λ q. ⊥) land.old land.new) }
    ensures rests { LeavesBe land.old land.new (D.history disk.old) (D.history disk.new) (D.size disk.old)
        (D.size disk.new)
        (header_of node).generation }
    ensures told { (before : B) (log : List Telling) → B.follows before log book.old
        → IfOk result (λ now. B.follows before (log ++ Made now ∷ []) book.new) }
    ensures book { KeepsBook B.stands B.settled book.old book.new land.old land.new disk.old disk.new result }
    ensures fails { FailsByDisk (D.history disk.old) (D.faults disk.old) (D.faults disk.new) result }
    ensures stops { StopsForCause result land.old.blocks.draft.sizes (D.size disk.old) }
    ensures reads { reads.new + B.spent book.old ≤ reads.old + B.spent book.new + 1 }
{
    let now = put_node(land, node)?;
    book.made(land, disk, now, reads)?;
    Ok(now)
}

/// The tree reaches the node at an address, in bytes, no more: it is read, and the book is told.
///
/// Over a disk that tells, `Image` comes only where a rule is broken at `at`; over any disk, only for a cause. `Disk` comes
/// exactly where the disk met a fault.
pub fn leave_node<D: Disk, L: Ledger, B: Book<D, L>>(
    land: &mut Ground,
    disk: &mut D,
    book: &mut B,
    at: Address,
    reads: &mut Steps<L>,
) -> Result<(), BlockFault>
    requires backed { IsBacked land.old.blocks (D.history disk.old) }
    requires stands { B.stands book.old land.old disk.old }
    ensures gone { OnOk result (LetsGo land.old land.new at) }
    ensures takes { (generation : ℕ) → IsDrafted land.old generation
        → OnOk result (Takes 0 (λ q. q ≡ at) land.old land.new) }
    ensures rests { (generation : ℕ) → IsDrafted land.old generation
        → Rests land.old land.new (D.history disk.new) generation }
    ensures told { (node : NodeValue) → told land.old.blocks.draft (D.history disk.old) at ≡ Some node
        → (before : B) (log : List Telling) → B.follows before log book.old
        → OnOk result (B.follows before (log ++ Left node ∷ []) book.new) }
    ensures stands { OnOk result (B.stands book.new land.new disk.new) }
    ensures settled { (before : Land) → Empties before land.old at → B.settled book.old before disk.old
        → OnOk result (B.settled book.new land.new disk.new) }
    ensures fails { FailsToRead land.old (D.history disk.old) at (D.faults disk.old) (D.faults disk.new) result }
    ensures stops { StopsForCause result land.old.blocks.draft.sizes (D.size disk.old) }
    ensures disk { (D.history disk.new ≡ D.history disk.old) × (D.size disk.new ≡ D.size disk.old) }
    ensures reads { reads.new + B.spent book.old ≤ reads.old + B.spent book.new + 2 }
{
    land.blocks.load(disk, at, reads)?;
    book.left(land, disk, at, reads)
}
