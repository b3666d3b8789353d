// Two fresh neighbours.
ghost use Rattle.std.specs.Prelude.{◌≡◌, ◌≢◌, ◌+◌, ◌≤◌, ℕ, Some, OnOk, IfOk, IsErrOf, IsSome};
ghost use Rattle.qg_node.specs.declared.node.Node.{Node as NodeValue};
ghost use Rattle.qg_node.specs.Nodes.{header_of};
ghost use Rattle.qg_node.specs.NodeText.{IsNode, IsNodeSize};
ghost use Rattle.qg_shape.specs.Filled.{HasShortBodies, IsThin};
ghost use Rattle.qg_blocks.specs.Lending.{with_fresh};
ghost use Rattle.qg_blocks.specs.Stopping.{StopsForCause};
ghost use Rattle.qg_blocks.specs.NodesFound.{BreaksNone, IsBacked, fresh_at};
ghost use Rattle.qg_node_alloc.specs.Land.{IsDrafted};
ghost use Rattle.qg_edit.specs.Outcome.{IsInFront, cleared};
ghost use Rattle.qg_tree_edits.specs.Editing.{ArePair, AreRewritten, IsJoinedThere};
ghost use Rattle.qg_tree_edits.specs.Uniting.{AreUnited};
ghost use Rattle.qg_tree_edits.specs.Failing.{ArentJoined, NamesOnly};
ghost use Rattle.qg_tree_edits.specs.Steps.{FailsToUnite, UnitesDrafted};

use crate::instead::Instead;
use qg_disk::Disk;
use qg_edit::merge;
use qg_node::{Header, Items, Node};
use qg_node_alloc::{Book, Ground, leave_node};
use qg_num::{Address, BlockFault, Steps};
use qg_shape::Joined;
use std::alloc::Global;
use std::mem;
use std::sync::ledger::Ledger;

// The fresh node at an address, where an empty leaf lies then.
fn take_node(alloc: Global, land: &mut Ground, at: Address) -> Node
    requires { IsSome (fresh_at land.old.blocks.draft at) }
    ensures taken { fresh_at land.old.blocks.draft at ≡ Some result }
    ensures left { land.new ≡ record land.old { blocks = with_fresh land.old.blocks at (cleared result) } }
{
    let node = land.blocks.get_mut(at);
    let header = Header {
        level: 0,
        ..node.header()
    };
    let empty = Node::Leaf {
        header,
        items: Items::new(alloc),
    };
    mem::replace(node, empty)
}

// Joins the fresh nodes at two addresses. Where all is in the left one, an empty leaf lies in the place of the right
// one.
pub(crate) fn join_nodes(
    alloc: Global,
    land: &mut Ground,
    left: Address,
    right: Address,
) -> Result<Joined, BlockFault>
    requires apart { left ≢ right }
    requires pair { ArePair land.old left right }
    ensures rewritten { AreRewritten land.old land.new left right }
    ensures joined { IfOk result (λ joined. IsJoinedThere land.old land.new left right joined) }
    ensures sound { (a b : NodeValue) → fresh_at land.old.blocks.draft left ≡ Some a
        → fresh_at land.old.blocks.draft right ≡ Some b
        → IsInFront a b → HasShortBodies a → HasShortBodies b → BreaksNone result }
    ensures broken { (a b : NodeValue) → fresh_at land.old.blocks.draft left ≡ Some a
        → fresh_at land.old.blocks.draft right ≡ Some b
        → NamesOnly (ArentJoined land.new left right a b) result }
    ensures no_disk { IsErrOf result BlockFault.Disk → ⊥ }
{
    let nodesize = land.blocks.nodesize();
    let mut other = take_node(alloc, land, right);
    let joined = merge(land.blocks.get_mut(left), &mut other, nodesize);
    match joined {
        Ok(Joined::Whole) => {}
        _ => *land.blocks.get_mut(right) = other,
    }
    joined
}

// Joins the fresh nodes at two addresses. The answer is what stands in their place; where all is in the left one, the
// right one is left.
pub(crate) fn unite<D: Disk, L: Ledger, B: Book<D, L>>(
    alloc: Global,
    land: &mut Ground,
    disk: &mut D,
    book: &mut B,
    left: Address,
    right: Address,
    reads: &mut Steps<L>,
) -> Result<Instead, BlockFault>
    requires backed { IsBacked land.old.blocks (D.history disk.old) }
    requires stands { B.stands book.old land.old disk.old }
    requires apart { left ≢ right }
    requires pair { ArePair land.old left right }
    ensures united { IfOk result (λ instead. AreUnited land.old land.new left right instead) }
    ensures fails { FailsToUnite land.old land.new left right (D.history disk.old) (D.faults disk.old)
        (D.faults disk.new) result }
    ensures stops { StopsForCause result land.old.blocks.draft.sizes (D.size disk.old) }
    ensures drafted { (generation : ℕ) → IsDrafted land.old generation
        → UnitesDrafted B.follows B.settled land.old land.new (D.history disk.new) generation right book.old book.new
        disk.old disk.new result }
    ensures stands { OnOk result (B.stands book.new land.new disk.new) }
    ensures disk { (D.history disk.new ≡ D.history disk.old) × (D.size disk.new ≡ D.size disk.old) }
    ensures reads { reads.new + B.spent book.old ≤ reads.old + B.spent book.new + 2 }
{
    match join_nodes(alloc, land, left, right)? {
        Joined::Parted => Ok(Instead {
            now: left,
            more: Some(right),
        }),
        Joined::Whole => {
            leave_node(land, disk, book, right, reads)?;
            Ok(Instead {
                now: left,
                more: None,
            })
        }
    }
}
