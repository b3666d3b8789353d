// The root of a tree that was edited.
ghost use Rattle.std.specs.Prelude.{◌≡◌, ◌+◌, ◌<◌, ◌≤◌, ◌∷◌, [], ℕ, IfOk, IsErrOf, IsSome, IsTrue, List, None, Some};
ghost use Rattle.std.specs.Ordering.{is_lt};
ghost use Rattle.qg_num.specs.Key.{key_cmp};
ghost use Rattle.qg_num.specs.declared.fault.BlockFault.TheVariants as block;
ghost use Rattle.qg_num.specs.declared.rule.Rule.TheVariants as rule;
ghost use Rattle.qg_node.specs.declared.item.Item.{Item as ItemValue};
ghost use Rattle.qg_node.specs.declared.node.Node.{Node as NodeValue};
ghost use Rattle.qg_node.specs.declared.node.Node.TheVariants as node;
ghost use Rattle.qg_node.specs.NodeText.{IsNode, IsNodeSize};
ghost use Rattle.qg_shape.specs.Pointing.{pointer_to};
ghost use Rattle.qg_blocks.specs.Stopping.{StopsForCause};
ghost use Rattle.qg_blocks.specs.NodesFound.{BreaksNone, fresh_at};
ghost use Rattle.qg_edit.specs.Outcome.{cleared};
ghost use Rattle.qg_tree_edits.specs.Editing.{IsEditable, IsFreshOn, IsRewritten, StandsInstead, alone};
ghost use Rattle.qg_tree_edits.specs.Failing.{NamesOnly};
ghost use Rattle.qg_node_alloc.specs.Calls.{FailsByDisk, KeepsBook, LeavesBe};
ghost use Rattle.qg_tree_edits.specs.Rooting.{StandsForRoot, levels_for, lone_child};
ghost use Rattle.qg_tree_edits.specs.Steps.{FailsToRoot, IsReadyFor, RootsItems, SetsRoot};

use crate::instead::Instead;
use qg_disk::Disk;
use qg_edit::clear;
use qg_node::{Header, Node, Pointers};
use qg_node_alloc::{Book, Ground, leave_node, make_node};
use qg_num::{Address, BlockFault, Rule, Steps};
use qg_shape::pointer_to;
use qg_tree_items::TreePart;
use qg_tree_read::Tree;
use std::alloc::Global;
use std::sync::ledger::Ledger;

// The highest level of a node.
const HIGHEST: u8 = 7;

// Gives the tree its root, once what stands in the place of the old one is known: a node above two, the child of a node
// with one pointer, or the node itself.
pub(crate) fn set_root<P: TreePart, D: Disk, L: Ledger, B: Book<D, L>>(
    tree: &mut Tree,
    alloc: Global,
    land: &mut Ground,
    disk: &mut D,
    book: &mut B,
    instead: Instead,
    reads: &mut Steps<L>,
) -> Result<(), BlockFault>
    requires ready { IsReadyFor 1 P.tree tree.old land.old (D.history disk.old) (D.size disk.old) }
    requires stands { B.stands book.old land.old disk.old }
    requires stood { StandsInstead land.old tree.old.height instead }
    ensures root { SetsRoot (levels_for instead.more) 1 tree.old tree.new land.old land.new result }
    ensures rooted { (items : List ItemValue)
        → StandsForRoot P.tree tree.old land.old (D.history disk.old) instead items
        → RootsItems B.follows P.tree tree.old tree.new land.old land.new (D.history disk.old) instead items book.old
        book.new result }
    ensures fails { FailsToRoot P.tree tree.old land.old land.new (D.history disk.old) instead (D.faults disk.old)
        (D.faults disk.new) result }
    ensures stops { StopsForCause result land.old.blocks.draft.sizes (D.size disk.old) }
    ensures rests { LeavesBe land.old land.new (D.history disk.old) (D.history disk.new) (D.size disk.old)
        (D.size disk.new) tree.old.next }
    ensures book { KeepsBook B.stands B.settled book.old book.new land.old land.new disk.old disk.new result }
    ensures reads { reads.new + B.spent book.old ≤ reads.old + B.spent book.new + 2 }
{
    match instead.more {
        Some(more) => {
            grow::<P, D, L, B>(tree, alloc, land, disk, book, instead.now, more, reads)
        }
        None => shrink::<P, D, L, B>(tree, land, disk, book, instead.now, reads),
    }
}

// A new root stands above the fresh nodes at two addresses.
fn grow<P: TreePart, D: Disk, L: Ledger, B: Book<D, L>>(
    tree: &mut Tree,
    alloc: Global,
    land: &mut Ground,
    disk: &mut D,
    book: &mut B,
    now: Address,
    more: Address,
    reads: &mut Steps<L>,
) -> Result<(), BlockFault>
    requires ready { IsReadyFor 1 P.tree tree.old land.old (D.history disk.old) (D.size disk.old) }
    requires stands { B.stands book.old land.old disk.old }
    requires first { IsFreshOn land.old tree.old.height now }
    requires second { IsFreshOn land.old tree.old.height more }
    ensures root { SetsRoot 1 1 tree.old tree.new land.old land.new result }
    ensures rooted { (items : List ItemValue)
        → StandsForRoot P.tree tree.old land.old (D.history disk.old) (record { now = now; more = Some more }) items
        → RootsItems B.follows P.tree tree.old tree.new land.old land.new (D.history disk.old)
        (record { now = now; more = Some more }) items book.old book.new result }
    ensures fails { FailsToRoot P.tree tree.old land.old land.new (D.history disk.old)
        (record { now = now; more = Some more }) (D.faults disk.old) (D.faults disk.new) result }
    ensures stops { StopsForCause result land.old.blocks.draft.sizes (D.size disk.old) }
    ensures rests { LeavesBe land.old land.new (D.history disk.old) (D.history disk.new) (D.size disk.old)
        (D.size disk.new) tree.old.next }
    ensures book { KeepsBook B.stands B.settled book.old book.new land.old land.new disk.old disk.new result }
    ensures reads { reads.new + B.spent book.old ≤ reads.old + B.spent book.new + 1 }
{
    if tree.height() >= HIGHEST {
        return Err(BlockFault::Image {
            rule: Rule::Refs,
            address: now,
        });
    }
    let header = Header {
        address: now,
        generation: tree.next(),
        owner: tree.owner(),
        level: tree.height() + 1,
    };
    let node = node_above(alloc, header, land.blocks.peek(now), land.blocks.peek(more))?;
    let root = make_node(land, disk, book, node, reads)?;
    tree.rise_to(root);
    Ok(())
}

// The fresh node at an address is the root, or where it has one pointer, the child is, and the node is left.
fn shrink<P: TreePart, D: Disk, L: Ledger, B: Book<D, L>>(
    tree: &mut Tree,
    land: &mut Ground,
    disk: &mut D,
    book: &mut B,
    now: Address,
    reads: &mut Steps<L>,
) -> Result<(), BlockFault>
    requires editable { IsEditable land.old (D.history disk.old) (D.size disk.old) tree.old.next }
    requires stands { B.stands book.old land.old disk.old }
    requires fresh { IsFreshOn land.old tree.old.height now }
    ensures root { SetsRoot 0 0 tree.old tree.new land.old land.new result }
    ensures rooted { (items : List ItemValue)
        → StandsForRoot P.tree tree.old land.old (D.history disk.old) (alone now) items
        → RootsItems B.follows P.tree tree.old tree.new land.old land.new (D.history disk.old) (alone now) items
        book.old book.new result }
    ensures fails { FailsByDisk (D.history disk.old) (D.faults disk.old) (D.faults disk.new) result }
    ensures stops { StopsForCause result land.old.blocks.draft.sizes (D.size disk.old) }
    ensures rests { LeavesBe land.old land.new (D.history disk.old) (D.history disk.new) (D.size disk.old)
        (D.size disk.new) tree.old.next }
    ensures book { KeepsBook B.stands B.settled book.old book.new land.old land.new disk.old disk.new result }
    ensures reads { reads.new + B.spent book.old ≤ reads.old + B.spent book.new + 2 }
{
    match lone_child(land.blocks.peek(now)) {
        None => {
            tree.stand_at(now);
            Ok(())
        }
        Some(child) => {
            clear_at(land, now);
            leave_node(land, disk, book, now, reads)?;
            tree.sink_to(child);
            Ok(())
        }
    }
}

// Puts an empty leaf in the place of the fresh node at an address, so that it leads to nothing.
fn clear_at(land: &mut Ground, at: Address)
    requires size { IsNodeSize land.old.space.sizes.nodesize }
    requires fresh { IsSome (fresh_at land.old.blocks.draft at) }
    ensures cleared { (node : NodeValue) → fresh_at land.old.blocks.draft at ≡ Some node
        → IsRewritten land.old land.new at node }
    ensures here { (node : NodeValue) → fresh_at land.old.blocks.draft at ≡ Some node
        → fresh_at land.new.blocks.draft at ≡ Some (cleared node) }
{
    clear(land.blocks.get_mut(at));
}

// The child of a node with one pointer.
fn lone_child(node: &Node) -> Option<Address>
    ensures { result ≡ lone_child node.now }
{
    match node {
        Node::Leaf { .. } => None,
        Node::Inner { pointers, .. } => match pointers.as_slice() {
            [pointer] => Some(pointer.child),
            _ => None,
        },
    }
}

// The node of a header above two others, of which the first has the lesser keys.
pub(crate) fn node_above(
    alloc: Global,
    header: Header,
    left: &Node,
    right: &Node,
) -> Result<Node, BlockFault>
    requires level { (1 ≤ header.level) × (header.level ≤ 7) }
    ensures above { IfOk result (λ above. above ≡ node.Inner header (pointer_to left.now ∷ pointer_to right.now ∷ [])) }
    ensures sound { (size : ℕ) → IsNodeSize size → IfOk result (IsNode size) }
    ensures none { IsTrue (is_lt (key_cmp (pointer_to left.now).key (pointer_to right.now).key)) → BreaksNone result }
    ensures broken { NamesOnly (λ name address. (name ≡ rule.Refs) × (address ≡ (pointer_to left.now).child)
        × (IsTrue (is_lt (key_cmp (pointer_to left.now).key (pointer_to right.now).key)) → ⊥)) result }
    ensures no_disk { IsErrOf result block.Disk → ⊥ }
{
    let first = pointer_to(left);
    let second = pointer_to(right);
    if first.key.is_before(second.key) {
        let mut pointers = Pointers::new(alloc);
        pointers.push(first)?;
        pointers.push(second)?;
        return Ok(Node::Inner { header, pointers });
    }
    Err(BlockFault::Image {
        rule: Rule::Refs,
        address: first.child,
    })
}
