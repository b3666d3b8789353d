// Which nodes each node points to.
ghost use Rattle.std.specs.Prelude.{◌≡◌, map, IfOk, IfSome, IfNone, Some, slice_get};
ghost use Rattle.std.specs.List.{All};
ghost use Rattle.std.specs.List.Sorted.{IsStrictlyIncreasing};
ghost use Rattle.qg_owner_rule.specs.Places.{IsUnder, ArePlacesBelow};
ghost use Rattle.qg_owner_rule.specs.Marks.{AreBelow};
ghost use Rattle.qg_owner_rule.specs.declared.linked.Linked.{Linked};

use crate::Linked;
use crate::places::place_of_node;
use qg_num::{Address, Sequence};
use std::alloc::{AllocError, Global};

/// For each node the indices of those that it points to.
pub fn all_below(alloc: Global, nodes: &[Linked]) -> Result<Vec<Sequence<usize>>, AllocError>
    requires { IsStrictlyIncreasing (map (λ node. node.address) nodes.now) }
    ensures { IfOk result (λ below. AreBelow nodes.now below.items) }
{
    let mut below = Vec::with_capacity(alloc, nodes.len())?;
    for node in nodes {
        below.push(places_below(alloc, nodes, node)?)?;
    }
    Ok(below)
}

/// The indices of the nodes that a node points to.
fn places_below(
    alloc: Global,
    nodes: &[Linked],
    parent: &Linked,
) -> Result<Sequence<usize>, AllocError>
    requires { IsStrictlyIncreasing (map (λ node. node.address) nodes.now) }
    ensures { IfOk result (λ places. ArePlacesBelow nodes.now parent.now places) }
{
    let mut places = Sequence::with_capacity(alloc, parent.children.len())?;
    for child in parent.children.as_slice() {
        if let Some(place) = place_below(nodes, parent, *child) {
            places.push(place)?;
        }
    }
    Ok(places)
}

/// The index of the node at an address, where it is one level below a node; none exactly where there is no such node.
fn place_below(nodes: &[Linked], parent: &Linked, address: Address) -> Option<usize>
    requires { IsStrictlyIncreasing (map (λ node. node.address) nodes.now) }
    ensures there { IfSome result (λ place.
        (node : Linked) × (slice_get nodes.now place ≡ Some node) × IsUnder parent.now address node) }
    ensures absent { IfNone result (All (λ node. IsUnder parent.now address node → ⊥) nodes.now) }
{
    let place = place_of_node(nodes, address)?;
    if parent.level > 0 && nodes[place].level == parent.level - 1 {
        Some(place)
    } else {
        None
    }
}
