// What rules and books ask of the lists that they are lent.
ghost use Rattle.std.specs.Prelude.{◌≡◌, map, true};
ghost use Rattle.std.specs.List.Sorted.{IsNonDecreasingBy, IsStrictlyIncreasing};
ghost use Rattle.qg_image.specs.Table.{keys_of};
ghost use Rattle.qg_image.specs.Owed.{part_address};

use qg_image::ExtentPart;
use qg_num::{Address, RootId};
use qg_owner_rule::Linked;

/// Whether roots ascend by the numbers of their subvolumes.
pub(crate) fn do_roots_ascend(roots: &[(RootId, Address)]) -> bool
    ensures { result ≡ true → IsStrictlyIncreasing (keys_of roots.now) }
{
    roots.is_sorted_by(|root, next| root.0 < next.0)
}

/// Whether nodes ascend by address.
pub(crate) fn do_nodes_ascend(nodes: &[Linked]) -> bool
    ensures { result ≡ true → IsStrictlyIncreasing (map (λ node. node.address) nodes.now) }
{
    nodes.is_sorted_by(|node, next| node.address < next.address)
}

/// Whether records don't descend by address.
pub(crate) fn do_parts_ascend(parts: &[ExtentPart]) -> bool
    ensures { result ≡ true → IsNonDecreasingBy part_address parts.now }
{
    parts.is_sorted_by(|part, next| address_of(part) <= address_of(next))
}

fn address_of(part: &ExtentPart) -> Address
    ensures { result ≡ part_address part.now }
{
    match part {
        ExtentPart::DataRecord { address, .. } => *address,
        ExtentPart::NodeRecord { address, .. } => *address,
        ExtentPart::Referenced { address, .. } => *address,
    }
}
