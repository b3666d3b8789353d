// Where a node, or a subvolume, stands among others that ascend.
ghost use Rattle.std.specs.Prelude.{map, IfSome, IfNone};
ghost use Rattle.std.specs.List.Sorted.{IsStrictlyIncreasing};
ghost use Rattle.qg_image.specs.Table.{keys_of};
ghost use Rattle.qg_owner_rule.specs.Places.{StandsAt, AreOthers};

use crate::Linked;
use qg_num::{Address, RootId};

/// The index of the node at an address; none exactly where none lies there.
pub fn place_of_node(nodes: &[Linked], address: Address) -> Option<usize>
    requires { IsStrictlyIncreasing (map (λ node. node.address) nodes.now) }
    ensures there { IfSome result (λ place. StandsAt (λ node. node.address) nodes.now address place) }
    ensures absent { IfNone result (AreOthers (λ node. node.address) nodes.now address) }
{
    nodes
        .binary_search_by_key(&address, |node| node.address)
        .ok()
}

/// The index of a subvolume's root; none exactly where the number is none of theirs.
pub(crate) fn place_of_root(roots: &[(RootId, Address)], subvolume: RootId) -> Option<usize>
    requires { IsStrictlyIncreasing (keys_of roots.now) }
    ensures there { IfSome result (λ place. StandsAt (λ root. root.0) roots.now subvolume place) }
    ensures absent { IfNone result (AreOthers (λ root. root.0) roots.now subvolume) }
{
    roots.binary_search_by_key(&subvolume, |root| root.0).ok()
}
