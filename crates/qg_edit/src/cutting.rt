// A node that may have too much.
ghost use Rattle.std.specs.Prelude.{◌≡◌, ◌+◌, ◌≤◌, ◌↔◌, false, length, IfOk, OnErr, IsTrue};
ghost use Rattle.std.specs.List.{All};
ghost use Rattle.qg_num.specs.declared.fault.BlockFault.TheVariants as fault;
ghost use Rattle.qg_num.specs.declared.rule.Rule.TheVariants as rule;
ghost use Rattle.qg_node.specs.Nodes.{header_of, is_ascending, own_keys, used_bytes};
ghost use Rattle.qg_node.specs.NodeText.{IsLevelled, IsNodeSize};
ghost use Rattle.qg_shape.specs.Filled.{HasShortBodies};
ghost use Rattle.qg_blocks.specs.NodesFound.{BreaksNone};
ghost use Rattle.qg_edit.specs.Answering.{AnswersBy, CanCut, IsBrokenUnless};
ghost use Rattle.qg_edit.specs.Outcome.{IsLeftOf, IsNodeFor, cleared};

use crate::clearing::clear;
use qg_node::{Item, Node};
use qg_num::{BlockFault, Rule};
use qg_shape::{is_overfull, split};

/// The longest body of an item, in bytes.
const LONGEST_BODY: usize = 1024;

/// A node that what was read elsewhere does not agree with.
pub(crate) fn misfit(node: &Node) -> BlockFault
    ensures { result ≡ fault.Image rule.Refs (header_of node.now).address }
{
    BlockFault::Image {
        rule: Rule::Refs,
        address: node.header().address,
    }
}

/// A node with a body that is longer than a tree holds.
pub(crate) fn overlong(node: &Node) -> BlockFault
    ensures { result ≡ fault.Image rule.Item (header_of node.now).address }
{
    BlockFault::Image {
        rule: Rule::Item,
        address: node.header().address,
    }
}

/// Whether no body of the node is longer than a tree holds.
pub(crate) fn has_short_bodies(node: &Node) -> bool
    ensures { IsTrue result ↔ HasShortBodies node.now }
{
    match node {
        Node::Leaf { items, .. } => are_short(items.as_slice()),
        Node::Inner { .. } => true,
    }
}

fn are_short(items: &[Item]) -> bool
    ensures { IsTrue result ↔ All (λ item. length item.body ≤ 1024) items.now }
{
    items.iter().all(|item| item.body.len() <= LONGEST_BODY)
}

/// Cuts a node in two where it has too much, by an item at most, which is only looked for where it has grown. `newest`
/// is where the item or pointer stands that was put in last. After an `Err` the node is an empty leaf.
pub(crate) fn cut(
    node: &mut Node,
    nodesize: u32,
    newest: usize,
    has_grown: bool,
) -> Result<Option<Node>, BlockFault>
    requires size { IsNodeSize nodesize }
    requires levelled { IsLevelled node.old }
    requires ascending { IsTrue (is_ascending (own_keys node.old)) }
    requires by_one { 101 + used_bytes node.old ≤ nodesize + 1049 }
    requires kept { has_grown ≡ false → 101 + used_bytes node.old ≤ nodesize }
    ensures cut { IfOk result (IsLeftOf nodesize node.old node.old node.new) }
    ensures answers { AnswersBy (CanCut nodesize node.old)
        (IsBrokenUnless rule.Item node.old (CanCut nodesize node.old)) result }
    ensures node { IsNodeFor nodesize node.old node.new }
    ensures sound { HasShortBodies node.old → BreaksNone result }
    ensures err { OnErr result (node.new ≡ cleared node.old) }
{
    if !has_grown {
        return Ok(None);
    }
    if !is_overfull(node, nodesize) {
        return Ok(None);
    }
    if !has_short_bodies(node) {
        let fault = overlong(node);
        clear(node);
        return Err(fault);
    }
    let address = node.header().address;
    match split(node, nodesize, newest, address) {
        Ok(rest) => Ok(Some(rest)),
        Err(fault) => {
            clear(node);
            Err(BlockFault::from(fault))
        }
    }
}
