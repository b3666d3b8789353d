// A child was edited: the pointers of its node are set, and a child that is not a quarter full is joined with its
// neighbour.
ghost use Rattle.std.specs.Prelude.{◌≡◌, ◌+◌, ◌-◌, ◌*◌, ◌<◌, ◌≤◌, ℕ, List, None, Some, IfOk, IsSome, IsTrue};
ghost use Rattle.std.specs.Prelude.{false, length};
ghost use Rattle.qg_device.specs.History.{History};
ghost use Rattle.qg_node.specs.declared.item.Item.{Item as ItemValue};
ghost use Rattle.qg_node.specs.declared.node.Node.{Node as NodeValue};
ghost use Rattle.qg_node.specs.declared.pointer.Pointer.{Pointer as PointerValue};
ghost use Rattle.qg_node.specs.declared.node.Header.{Header as HeaderValue};
ghost use Rattle.qg_node.specs.Nodes.{own_pointers};
ghost use Rattle.qg_node.specs.NodeText.{IsNode, IsNodeSize};
ghost use Rattle.qg_super.specs.declared.superblock.Super.{Super as SuperValue};
ghost use Rattle.qg_image.specs.declared.tree.TreeKind.{TreeKind as TreeValue};
ghost use Rattle.qg_shape.specs.Filled.{IsThin};
ghost use Rattle.qg_shape.specs.Parts.{IsInner};
ghost use Rattle.qg_blocks.specs.Stopping.{StopsForCause};
ghost use Rattle.qg_blocks.specs.NodesFound.{fresh_at};
ghost use Rattle.qg_tree_edits.specs.Editing.{CanLead, HasLed, IsNamed, IsRewritten, IsUnsettled, OfEach};
ghost use Rattle.qg_tree_edits.specs.Editing.{StandsInstead, StaysCut, alone};
ghost use Rattle.qg_node_alloc.specs.Calls.{KeepsBook, LeavesBe};
ghost use Rattle.qg_tree_edits.specs.Steps.{FailsToLead, FailsToSettle, HasNodeSize, HasPlace, IsReadyFor, IsThinOn};
ghost use Rattle.qg_tree_edits.specs.Steps.{SetsPointers, SettlesItems};

use crate::instead::Instead;
use crate::joining::unite;
use crate::pairing::own_neighbour;
use crate::rewriting::rewrite_pointers;
use qg_disk::Disk;
use qg_node::Node;
use qg_node_alloc::{Book, Ground};
use qg_num::{Address, BlockFault, Key, Steps};
use qg_shape::{is_thin, pointer_to};
use qg_tree_items::TreePart;
use qg_tree_read::Tree;
use std::alloc::Global;
use std::sync::ledger::Ledger;

// Sets the pointers of the fresh node at an address to what stands in the place of one of its children, which are of a
// level. Where the node then has too much, the answer is what was cut off.
pub(crate) fn settle<P: TreePart, D: Disk, L: Ledger, B: Book<D, L>>(
    tree: &Tree,
    alloc: Global,
    land: &mut Ground,
    disk: &mut D,
    book: &mut B,
    at: Address,
    to: Option<Key>,
    level: u8,
    place: usize,
    child: Instead,
    reads: &mut Steps<L>,
) -> Result<Option<Node>, BlockFault>
    requires ready { IsReadyFor 1 P.tree tree.now land.old (D.history disk.old) (D.size disk.old) }
    requires stands { B.stands book.old land.old disk.old }
    requires place { HasPlace land.old level at place }
    requires child { StandsInstead land.old level child }
    ensures set { SetsPointers tree.now level at child land.old land.new result }
    ensures settled { (items : List ItemValue)
        → (un : IsUnsettled P.tree tree.now land.old (D.history disk.old) level at to place child items)
        → SettlesItems B.follows P.tree tree.now level at place child land.old land.new (D.history disk.old) un.pointers
        un.header items book.old book.new result }
    ensures fails { FailsToSettle P.tree tree.now level at to place child land.old land.new (D.history disk.old)
        (D.faults disk.old) (D.faults disk.new) result }
    ensures stops { StopsForCause result land.old.blocks.draft.sizes (D.size disk.old) }
    ensures rests { LeavesBe land.old land.new (D.history disk.old) (D.history disk.new) (D.size disk.old)
        (D.size disk.new) tree.now.next }
    ensures book { KeepsBook B.stands B.settled book.old book.new land.old land.new disk.old disk.new result }
    ensures reads { reads.new + B.spent book.old ≤ reads.old + B.spent book.new + 5 }
{
    if is_too_thin(land, &child) {
        return join_child::<P, D, L, B>(
            tree, alloc, land, disk, book, at, to, level, place, child.now, reads,
        );
    }
    lead_to(land, at, place, place + 1, child)
}

// Joins a child that is not a quarter full with its neighbour, and sets the pointers of the fresh node at an address to
// both.
fn join_child<P: TreePart, D: Disk, L: Ledger, B: Book<D, L>>(
    tree: &Tree,
    alloc: Global,
    land: &mut Ground,
    disk: &mut D,
    book: &mut B,
    at: Address,
    to: Option<Key>,
    level: u8,
    place: usize,
    child: Address,
    reads: &mut Steps<L>,
) -> Result<Option<Node>, BlockFault>
    requires ready { IsReadyFor 1 P.tree tree.now land.old (D.history disk.old) (D.size disk.old) }
    requires stands { B.stands book.old land.old disk.old }
    requires place { HasPlace land.old level at place }
    requires child { IsThinOn land.old level child }
    ensures set { SetsPointers tree.now level at (alone child) land.old land.new result }
    ensures settled { (items : List ItemValue)
        → (un : IsUnsettled P.tree tree.now land.old (D.history disk.old) level at to place (alone child) items)
        → SettlesItems B.follows P.tree tree.now level at place (alone child) land.old land.new (D.history disk.old)
        un.pointers un.header items book.old book.new result }
    ensures fails { FailsToSettle P.tree tree.now level at to place (alone child) land.old land.new (D.history disk.old)
        (D.faults disk.old) (D.faults disk.new) result }
    ensures stops { StopsForCause result land.old.blocks.draft.sizes (D.size disk.old) }
    ensures rests { LeavesBe land.old land.new (D.history disk.old) (D.history disk.new) (D.size disk.old)
        (D.size disk.new) tree.now.next }
    ensures book { KeepsBook B.stands B.settled book.old book.new land.old land.new disk.old disk.new result }
    ensures reads { reads.new + B.spent book.old ≤ reads.old + B.spent book.new + 5 }
{
    let pair = own_neighbour::<P, D, L, B>(
        tree, alloc, land, disk, book, at, to, level, place, child, reads,
    )?;
    let instead = unite(alloc, land, disk, book, pair.left, pair.right, reads)?;
    lead_to(land, at, pair.front, pair.front + 2, instead)
}

// Whether one node stands there, and is not a quarter full.
fn is_too_thin(land: &Ground, child: &Instead) -> bool
    requires size { IsNodeSize land.now.blocks.draft.sizes.nodesize }
    requires fresh { IsSome (fresh_at land.now.blocks.draft child.now.now) }
    ensures thin { IsTrue result → (child.entry.now ≡ alone child.entry.now.now)
        × ((node : NodeValue) → fresh_at land.now.blocks.draft child.entry.now.now ≡ Some node
        → IsThin land.now.blocks.draft.sizes.nodesize node) }
    ensures full { result ≡ false → child.entry.now.more ≡ None → (node : NodeValue)
        → fresh_at land.now.blocks.draft child.entry.now.now ≡ Some node
        → IsThin land.now.blocks.draft.sizes.nodesize node → ⊥ }
{
    match child.more {
        Some(_) => false,
        None => is_thin(land.blocks.peek(child.now), land.blocks.nodesize()),
    }
}

// Sets pointers of the fresh node at an address, from one index up to another, to what stands there instead. Where the
// node then has too much, the answer is what was cut off.
fn lead_to(
    land: &mut Ground,
    at: Address,
    from: usize,
    to: usize,
    instead: Instead,
) -> Result<Option<Node>, BlockFault>
    requires sizes { HasNodeSize land.old }
    requires fresh { OfEach (IsNamed land.old) instead }
    requires parent { (node : NodeValue) × (fresh_at land.old.blocks.draft at ≡ Some node) × IsInner node
        × IsNode land.old.space.sizes.nodesize node × (to ≤ length (own_pointers node)) }
    requires some { (from < to) × (to ≤ from + 2) }
    ensures rewritten { (node : NodeValue) → fresh_at land.old.blocks.draft at ≡ Some node
        → IsRewritten land.old land.new at node }
    ensures rest { (node : NodeValue) → fresh_at land.old.blocks.draft at ≡ Some node
        → IfOk result (λ rest. StaysCut land.old.space.sizes.nodesize node land.new at rest) }
    ensures led { (tree : TreeValue) (super : SuperValue) (history : History) (level : ℕ)
        (pointers : List PointerValue) (header : HeaderValue) (items : List ItemValue)
        → CanLead tree super land.old history level at from to instead pointers header items
        → IfOk result (λ rest. HasLed tree super land.old land.new history level at from to instead pointers header
        items rest) }
    ensures fails { FailsToLead land.old at from to instead result }
    ensures fits { to ≡ from + 2 → IfOk result (λ rest. rest ≡ None) }
    ensures whole { instead.more ≡ None → IfOk result (λ rest. rest ≡ None) }
{
    let now = pointer_to(land.blocks.peek(instead.now));
    match instead.more {
        None => rewrite_pointers(land, at, from, to, &[now]),
        Some(more) => {
            let behind = pointer_to(land.blocks.peek(more));
            rewrite_pointers(land, at, from, to, &[now, behind])
        }
    }
}
