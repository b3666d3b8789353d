// The rule `home`.
ghost use Rattle.std.specs.Prelude.{◌≡◌, map, IfOk};
ghost use Rattle.std.specs.List.Sorted.{IsStrictlyIncreasing};
ghost use Rattle.qg_image.specs.Table.{keys_of};
ghost use Rattle.qg_image.specs.State.{Layout};
ghost use Rattle.qg_image.specs.Owed.{homeless};
ghost use Rattle.qg_owner_rule.specs.Linked.{AreLinksOf};

use crate::Linked;
use crate::below::all_below;
use crate::housed::{first_homeless, full_ones, house};
use crate::marks::MARKS;
use crate::own::house_own;
use qg_num::{Address, NoMemory, RootId};
use std::alloc::Global;

/// The least address of a node that isn't full and that its owner doesn't reach (this project's own). Addresses are in
/// bytes.
///
/// The roots ascend by their subvolumes' numbers, and the nodes by address. One pass over the nodes settles all that
/// their owners reach by way of their own nodes. Then 64 subvolumes take one pass together, where one of them owns a
/// node that is still open; so the time is that of the pointers, times the subvolumes by 64 at most.
pub fn homeless(
    alloc: Global,
    roots: &[(RootId, Address)],
    nodes: &[Linked],
) -> Result<Option<Address>, NoMemory>
    requires roots { IsStrictlyIncreasing (keys_of roots.now) }
    requires nodes { IsStrictlyIncreasing (map (λ node. node.address) nodes.now) }
    ensures { (layout : Layout) → AreLinksOf layout roots.now nodes.now
        → IfOk result (λ found. found ≡ homeless layout) }
{
    let below = all_below(alloc, nodes)?;
    let mut housed = full_ones(alloc, nodes)?;
    house_own(alloc, housed.as_mut_slice(), nodes, below.as_slice(), roots)?;
    let mut later = roots;
    while !later.is_empty() {
        let (group, others) = later.split_at(later.len().min(MARKS));
        house(alloc, housed.as_mut_slice(), nodes, below.as_slice(), group)?;
        later = others;
    }
    Ok(first_homeless(nodes, housed.as_slice()))
}
