// Which nodes their owners reach by way of their own nodes alone.
ghost use Rattle.std.specs.Prelude.{◌≡◌, ◌<◌, List, ℕ, length, OnOk, true};
ghost use Rattle.std.specs.List.{All};
ghost use Rattle.std.specs.List.Sorted.{IsStrictlyIncreasing};
ghost use Rattle.qg_image.specs.Table.{keys_of};
ghost use Rattle.qg_owner_rule.specs.Marks.{AreBelow};
ghost use Rattle.qg_owner_rule.specs.Housed.{AreHousedSoundly, AreOwn, HaveThose, IsOwnRoot, StayOwn, WereGiven};

use crate::Linked;
use crate::marks::highest_level;
use crate::places::place_of_root;
use qg_num::{Address, RootId, Sequence};
use std::alloc::{AllocError, Global};

/// Nodes are at home that their owner reaches by way of its own nodes alone. One pass over the nodes does for all
/// subvolumes; where a way leads over nodes of others, what is known stays as it was.
pub(crate) fn house_own(
    alloc: Global,
    housed: &mut [bool],
    nodes: &[Linked],
    below: &[Sequence<usize>],
    roots: &[(RootId, Address)],
) -> Result<(), AllocError>
    requires same { length housed.old ≡ length nodes.now }
    requires below { AreBelow nodes.now below.now }
    requires numbers { IsStrictlyIncreasing (keys_of roots.now) }
    ensures { OnOk result (AreHousedSoundly nodes.now roots.now housed.old housed.new) }
{
    let mut own = vec![in alloc; false; nodes.len()]?;
    mark_own(own.as_mut_slice(), nodes, below, roots);
    add_those(housed, own.as_slice());
    Ok(())
}

/// Marks nodes that their owner reaches so.
fn mark_own(
    own: &mut [bool],
    nodes: &[Linked],
    below: &[Sequence<usize>],
    roots: &[(RootId, Address)],
)
    requires same { length own.old ≡ length nodes.now }
    requires below { AreBelow nodes.now below.now }
    requires numbers { IsStrictlyIncreasing (keys_of roots.now) }
    requires own { AreOwn nodes.now roots.now own.old }
    ensures { AreOwn nodes.now roots.now own.new }
{
    mark_roots(own, nodes, roots);
    let highest = highest_level(nodes);
    for depth in 0..highest {
        give_level(own, nodes, below, highest - depth);
    }
}

/// Marks nodes that are the root of their owner.
fn mark_roots(own: &mut [bool], nodes: &[Linked], roots: &[(RootId, Address)])
    requires same { length own.old ≡ length nodes.now }
    requires numbers { IsStrictlyIncreasing (keys_of roots.now) }
    requires own { AreOwn nodes.now roots.now own.old }
    ensures { AreOwn nodes.now roots.now own.new }
{
    for (i, node) in nodes.iter().enumerate() {
        if is_own_root(roots, node) {
            own[i] = true;
        }
    }
}

/// Whether a node is the root of its owner.
fn is_own_root(roots: &[(RootId, Address)], node: &Linked) -> bool
    requires { IsStrictlyIncreasing (keys_of roots.now) }
    ensures { result ≡ true → IsOwnRoot roots.now node.now }
{
    match place_of_root(roots, node.owner) {
        Some(place) => roots[place].1 == node.address,
        None => false,
    }
}

/// Marks the children of marked nodes of a level that have the same owner.
fn give_level(own: &mut [bool], nodes: &[Linked], below: &[Sequence<usize>], level: u8)
    requires same { length own.old ≡ length nodes.now }
    requires below { AreBelow nodes.now below.now }
    ensures { StayOwn nodes.now own.old own.new }
{
    for (i, node) in nodes.iter().enumerate() {
        if node.level == level && own[i] {
            give_to(own, nodes, below[i].as_slice(), node.owner);
        }
    }
}

/// Marks those of the nodes at some indices that have this owner.
fn give_to(own: &mut [bool], nodes: &[Linked], places: &[usize], owner: RootId)
    requires same { length own.old ≡ length nodes.now }
    requires inside { All (λ place. place < length nodes.now) places.now }
    ensures { WereGiven nodes.now places.now owner own.old own.new }
{
    for place in places {
        if nodes[*place].owner == owner {
            own[*place] = true;
        }
    }
}

/// Those are at home that are marked, and those that were before.
fn add_those(housed: &mut [bool], own: &[bool])
    requires { length housed.old ≡ length own.now }
    ensures { HaveThose own.now housed.old housed.new }
{
    for (i, is_own) in own.iter().enumerate() {
        if *is_own {
            housed[i] = true;
        }
    }
}
