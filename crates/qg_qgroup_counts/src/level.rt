// The sets of the nodes of one level, by those of the level above.
ghost use Rattle.std.specs.Prelude.{◌≡◌, ◌<◌, map, length, IfOk, OnOk, slice_index};
ghost use Rattle.std.specs.List.{All};
ghost use Rattle.std.specs.List.Sorted.{IsStrictlyIncreasing};
ghost use Rattle.qg_qgroup_counts.specs.Reached.{AreWays, IsSized, SettlesLevel};

use crate::above::all_above;
use crate::own::root_rows;
use crate::reached::Reached;
use crate::sets::SetId;
use qg_num::{Address, RootId, Sequence};
use qg_owner_rule::Linked;
use std::alloc::{AllocError, Global};

/// By which ways nodes are reached: from where, and as whose root (this project's own).
#[derive(Drop)]
pub(crate) struct Ways {
    // Of each node the indices of those that point to it.
    above: Vec<Sequence<usize>>,
    // Of each node the words of the subvolumes whose root it is.
    own: Vec<Sequence<u64>>,
}

/// The ways to some nodes.
pub(crate) fn ways_to(
    alloc: Global,
    roots: &[(RootId, Address)],
    nodes: &[Linked],
) -> Result<Ways, AllocError>
    requires { IsStrictlyIncreasing (map (λ node. node.address) nodes.now) }
    ensures { IfOk result (λ ways. AreWays nodes.now roots.now ways) }
{
    Ok(Ways {
        above: all_above(alloc, nodes)?,
        own: root_rows(alloc, roots, nodes)?,
    })
}

/// Settles the nodes of a level: who reaches a node has it as the root, or reaches one that points to it.
pub(crate) fn settle_level(
    alloc: Global,
    reached: &mut Reached,
    nodes: &[Linked],
    ways: &Ways,
    level: u8,
) -> Result<(), AllocError>
    requires sized { IsSized nodes.now ways.now reached.old }
    ensures sized { OnOk result (IsSized nodes.now ways.now reached.new) }
    ensures settles { OnOk result (SettlesLevel nodes.now ways.now level reached.old reached.new) }
{
    for (i, node) in nodes.iter().enumerate() {
        if node.level == level {
            let over = sets_at(alloc, reached.numbers.as_slice(), ways.above[i].as_slice())?;
            let own = ways.own[i].as_slice();
            reached.numbers[i] = reached.sets.union_with(alloc, own, over.as_slice())?;
        }
    }
    Ok(())
}

/// The sets of the nodes at some indices.
fn sets_at(
    alloc: Global,
    numbers: &[SetId],
    places: &[usize],
) -> Result<Sequence<SetId>, AllocError>
    requires { All (λ place. place < length numbers.now) places.now }
    ensures { IfOk result (λ sets. sets ≡ map (λ place. slice_index numbers.now place) places.now) }
{
    let mut sets = Sequence::with_capacity(alloc, places.len())?;
    for place in places {
        sets.push(numbers[*place])?;
    }
    Ok(sets)
}
