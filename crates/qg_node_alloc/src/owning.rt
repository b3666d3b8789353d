// A node that a tree may edit.
ghost use Rattle.std.specs.Prelude.{◌≡◌, ◌+◌, ◌≤◌, false, ℕ, List, [], ◌∷◌, ◌++◌, Option, Some, None, Ok, IfOk, OnOk};
ghost use Rattle.std.specs.Prelude.{IsSome, is_some, if◌then◌else◌};
ghost use Rattle.qg_node.specs.declared.node.Node.{Node as NodeValue};
ghost use Rattle.qg_node.specs.Nodes.{header_of};
ghost use Rattle.qg_blocks.specs.Table.{with_number};
ghost use Rattle.qg_blocks.specs.NodesFound.{BreaksForCause, fresh_at, told};
ghost use Rattle.qg_blocks.specs.Stopping.{StopsForCause};
ghost use Rattle.qg_space.specs.Holding.{is_free_slot};
ghost use Rattle.qg_node_alloc.specs.Calls.{CanTakeSlot, FailsToRead, KeepsBook, LeavesBe};
ghost use Rattle.qg_node_alloc.specs.Changes.{Copies, Owned, Takes};
ghost use Rattle.qg_node_alloc.specs.Tellings.{Telling, Spares, node_copy};
ghost use Rattle.qg_node_alloc.specs.Tellings.Telling.{Copied};

use crate::putting::put_node;
use crate::{Book, Ground};
use qg_disk::Disk;
use qg_node::{Header, Node, Pointers, copy_items};
use qg_num::{Address, BlockFault, Generation, NoMemory, RootId, Steps};
use std::alloc::Global;
use std::sync::ledger::Ledger;

/// The header of a copy, by a tree and of a generation.
fn copied_header(header: Header, owner: RootId, generation: Generation) -> Header
    ensures { result ≡ record header { owner = owner; generation = generation } }
{
    Header {
        owner,
        generation,
        ..header
    }
}

/// A copy of a node at the same address, by a tree and of a generation.
fn copy_node(
    alloc: Global,
    node: &Node,
    owner: RootId,
    generation: Generation,
) -> Result<Node, NoMemory>
    ensures { IfOk result (λ copy. copy ≡ node_copy node.now (header_of node.now).address owner generation) }
{
    match node {
        Node::Leaf { header, items } => Ok(Node::Leaf {
            header: copied_header(*header, owner, generation),
            items: copy_items(alloc, items.as_slice())?,
        }),
        Node::Inner { header, pointers } => Ok(Node::Inner {
            header: copied_header(*header, owner, generation),
            pointers: Pointers::from_slice(alloc, pointers.as_slice())?,
        }),
    }
}

/// Reads the node at an address and copies it to a free slot, where the copy is fresh. After an `Err` the slot may be
/// taken.
fn copy_out<D: Disk, L: Ledger>(
    alloc: Global,
    land: &mut Ground,
    disk: &mut D,
    at: Address,
    owner: RootId,
    next: Generation,
    reads: &mut Steps<L>,
) -> Result<Address, BlockFault>
    requires ready { CanTakeSlot land.old (D.history disk.old) next }
    requires clean { fresh_at land.old.blocks.draft at ≡ None }
    ensures copied { IfOk result (λ now. Copies land.old land.new (D.history disk.old) at now owner next) }
    ensures slots { IfOk result (λ now. land.new.space.slots ≡ with_number now land.old.space.slots) }
    ensures spares { Spares land.old land.new }
    ensures rests { LeavesBe land.old land.new (D.history disk.old) (D.history disk.new) (D.size disk.old)
        (D.size disk.new) next }
    ensures fails { FailsToRead land.old (D.history disk.old) at (D.faults disk.old) (D.faults disk.new) result }
    ensures broken { BreaksForCause result land.old.blocks.draft.sizes (D.size disk.old) at }
    ensures reads { reads.new ≡ reads.old + 1 }
{
    land.blocks.load(disk, at, reads)?;
    let copy = copy_node(alloc, land.blocks.peek(at), owner, next)?;
    Ok(put_node(land, copy)?)
}

/// Where a tree may edit the node at an address, in bytes. A fresh node is edited where it lies, and nothing changes.
/// Any other is read and copied to a free slot; the copy is fresh, has the tree `owner` as owner and the generation
/// `next` to come, and the book is told. A node that was read from the free slot that its copy takes is told as one
/// that is made, since nothing refers to it.
///
/// Over a disk that tells, `Image` comes only where a rule is broken at `at`; over any disk, only for a cause. `Disk` comes
/// exactly where the disk met a fault.
pub fn cow_node<D: Disk, L: Ledger, B: Book<D, L>>(
    alloc: Global,
    land: &mut Ground,
    disk: &mut D,
    book: &mut B,
    at: Address,
    owner: RootId,
    next: Generation,
    reads: &mut Steps<L>,
) -> Result<Address, BlockFault>
    requires ready { CanTakeSlot land.old (D.history disk.old) next }
    requires stands { B.stands book.old land.old disk.old }

    // What is edited, and what of slots, nodes and disk is as it was.
    ensures owned { IfOk result (λ now. Owned land.old land.new (D.history disk.old) at now owner next) }
    ensures takes { OnOk result (Takes 1 (λ q. q ≡ at) land.old land.new) }
    ensures rests { LeavesBe land.old land.new (D.history disk.old) (D.history disk.new) (D.size disk.old)
        (D.size disk.new) next }

    // What the book is told.
    ensures same { IsSome (fresh_at land.old.blocks.draft at) → (result ≡ Ok at) × (book.new ≡ book.old) }
    ensures told { (node : NodeValue) → told land.old.blocks.draft (D.history disk.old) at ≡ Some node
        → fresh_at land.old.blocks.draft at ≡ None
        → is_free_slot land.old.space at ≡ false → (before : B) (log : List Telling) → B.follows before log book.old
        → IfOk result (λ now. B.follows before (log ++ Copied node now ∷ []) book.new) }
    ensures book { KeepsBook B.stands B.settled book.old book.new land.old land.new disk.old disk.new result }

    // Answers have their causes.
    ensures fails { FailsToRead land.old (D.history disk.old) at (D.faults disk.old) (D.faults disk.new) result }
    ensures stops { StopsForCause result land.old.blocks.draft.sizes (D.size disk.old) }
    ensures reads { reads.new + B.spent book.old ≤ reads.old + B.spent book.new
        + (if is_some (fresh_at land.old.blocks.draft at) then 0 else 2) }
{
    if land.blocks.is_fresh(at) {
        return Ok(at);
    }
    let now = copy_out(alloc, land, disk, at, owner, next, reads)?;
    if now != at {
        book.copied(land, disk, at, now, reads)?;
    } else {
        book.made(land, disk, now, reads)?;
    }
    Ok(now)
}
