// The nodes of a tree by address.
ghost use Rattle.std.specs.Prelude.{map, IfSome, IfNone};
ghost use Rattle.std.specs.List.Sorted.{IsNonDecreasingBy, IsPermutation, IsStrictlyIncreasing};

use crate::NodeRead;
use qg_num::Address;

/// Puts nodes in the order of their addresses.
pub(crate) fn sort_nodes(nodes: &mut Vec<NodeRead>)
    ensures ascending { IsNonDecreasingBy (λ node. node.linked.address) nodes.new.items }
    ensures moved { IsPermutation nodes.old.items nodes.new.items }
{
    nodes.sort_unstable_by_key(|node| node.linked.address);
}

/// An address at which two of some nodes lie, where they stand in the order of their addresses; none exactly where they
/// ascend.
pub(crate) fn shared_address(nodes: &[NodeRead]) -> Option<Address>
    ensures some { IfSome result (λ _. IsStrictlyIncreasing (map (λ node. node.linked.address) nodes.now) → ⊥) }
    ensures none { IfNone result (IsStrictlyIncreasing (map (λ node. node.linked.address) nodes.now)) }
{
    for i in 1..nodes.len() {
        if nodes[i].linked.address <= nodes[i - 1].linked.address {
            return Some(nodes[i].linked.address);
        }
    }
    None
}
