// Pointers in the place of others.
ghost use Rattle.std.specs.Prelude.{◌≡◌, ◌+◌, ◌-◌, ◌≤◌, ◌<◌, ◌++◌, ◌↔◌, length, map, take, drop, IfOk, OnOk, OnErr};
ghost use Rattle.std.specs.Prelude.{IsTrue};
ghost use Rattle.qg_node.specs.NodeText.{IsNode, IsNodeSize};
ghost use Rattle.qg_num.specs.declared.rule.Rule.TheVariants as rule;
ghost use Rattle.qg_node.specs.Nodes.{is_ascending, own_pointers};
ghost use Rattle.qg_shape.specs.Parts.{IsInner, with_pointers};
ghost use Rattle.qg_blocks.specs.NodesFound.{BreaksNone};
ghost use Rattle.qg_edit.specs.Answering.{AnswersBy, CanSplice, IsBrokenUnless};
ghost use Rattle.qg_edit.specs.Outcome.{IsLeftOf, IsNodeFor, IsOldOrCleared, spliced};

use crate::clearing::clear;
use crate::cutting::{cut, misfit};
use crate::ordering::{are_joined, do_ascend};
use qg_node::{Node, Pointer};
use qg_num::{BlockFault, NoMemory};

/// Puts one pointer or two in the place of those from one index up to another, so that there is one more at most. Where
/// the node then has too much it keeps a front, and the answer has the rest, which lies nowhere yet.
///
/// `Image` comes exactly where keys would not ascend, with the rule `refs` and the node. After an `Err` the node is as
/// it was, or an empty leaf.
pub fn splice(
    node: &mut Node,
    nodesize: u32,
    from: usize,
    to: usize,
    new: &[Pointer],
) -> Result<Option<Node>, BlockFault>
    requires size { IsNodeSize nodesize }
    requires inner { IsInner node.old }
    requires sound { IsNode nodesize node.old }
    requires within { (from ≤ to) × (to ≤ length (own_pointers node.old)) }
    requires few { (1 ≤ length new.now) × (length new.now ≤ 2) × (length new.now ≤ to - from + 1) }
    ensures spliced { IfOk result
        (IsLeftOf nodesize node.old (with_pointers node.old (spliced from to new.now (own_pointers node.old)))
        node.new) }
    ensures answers { AnswersBy (CanSplice from to new.now node.old)
        (IsBrokenUnless rule.Refs node.old (CanSplice from to new.now node.old)) result }
    ensures node { IsNodeFor nodesize node.old node.new }
    ensures sound { IsTrue (is_ascending
        (map (λ pointer. pointer.key) (spliced from to new.now (own_pointers node.old)))) → BreaksNone result }
    ensures err { OnErr result (IsOldOrCleared node.old node.new) }
{
    if !go_there(node, from, to, new) {
        return Err(misfit(node));
    }
    if let Err(fault) = put_pointers(node, from, to, new) {
        clear(node);
        return Err(BlockFault::from(fault));
    }
    cut(node, nodesize, from + new.len() - 1, new.len() > to - from)
}

// Whether keys ascend with pointers in the place of others.
fn go_there(node: &Node, from: usize, to: usize, new: &[Pointer]) -> bool
    requires inner { IsInner node.now }
    requires ascending { IsTrue (is_ascending (map (λ pointer. pointer.key) (own_pointers node.now))) }
    requires within { (from ≤ to) × (to ≤ length (own_pointers node.now)) }
    requires some { 1 ≤ length new.now }
    requires few { length new.now ≤ 2 }
    ensures { IsTrue result ↔ IsTrue
        (is_ascending (map (λ pointer. pointer.key) (spliced from to new.now (own_pointers node.now)))) }
{
    match node {
        Node::Inner { pointers, .. } => {
            let pointers = pointers.as_slice();
            are_in_order(&pointers[..from], new, &pointers[to..])
        }
        Node::Leaf { .. } => unreachable!(),
    }
}

// Whether keys ascend, where those in front do and those behind do.
fn are_in_order(front: &[Pointer], new: &[Pointer], back: &[Pointer]) -> bool
    requires front { IsTrue (is_ascending (map (λ pointer. pointer.key) front.now)) }
    requires back { IsTrue (is_ascending (map (λ pointer. pointer.key) back.now)) }
    requires some { 1 ≤ length new.now }
    requires few { length new.now ≤ 2 }
    ensures { IsTrue result ↔ IsTrue (is_ascending (map (λ pointer. pointer.key) (front.now ++ new.now ++ back.now))) }
{
    do_ascend(new) && are_joined(front, new) && are_joined(new, back)
}

// After an `Err` some pointers are gone.
fn put_pointers(node: &mut Node, from: usize, to: usize, new: &[Pointer]) -> Result<(), NoMemory>
    requires inner { IsInner node.old }
    requires within { (from ≤ to) × (to ≤ length (own_pointers node.old)) }
    ensures ok { OnOk result (node.new ≡ with_pointers node.old (spliced from to new.now (own_pointers node.old))) }
    ensures err { OnErr result
        (node.new ≡ with_pointers node.old (take from (own_pointers node.old) ++ drop to (own_pointers node.old))) }
{
    match node {
        Node::Leaf { .. } => unreachable!(),
        Node::Inner { pointers, .. } => match new {
            [one] if to - from == 1 => {
                pointers.set(from, *one);
                Ok(())
            }
            _ => {
                pointers.remove_range(from, to);
                Ok(pointers.insert_slice(from, new)?)
            }
        },
    }
}
