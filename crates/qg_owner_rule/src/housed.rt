// Which nodes are at home.
ghost use Rattle.std.specs.Prelude.{◌≡◌, ◌≤◌, ◌↔◌, map, length, false, OnOk, IfOk, IsTrue};
ghost use Rattle.std.specs.Option.{MatchOption};
ghost use Rattle.std.specs.List.Sorted.{IsStrictlyIncreasing};
ghost use Rattle.qg_image.specs.Table.{keys_of};
ghost use Rattle.qg_owner_rule.specs.Marks.{AreBelow, AreOfReach, HasOwnersMark};
ghost use Rattle.qg_owner_rule.specs.Housed.{AreHousedToo, OwnNone, AreAllHoused, IsFirstHomeless};

use crate::Linked;
use crate::marks::{has_mark, marks_of};
use crate::places::place_of_root;
use qg_num::{Address, RootId, Sequence};
use std::alloc::{AllocError, Global};

/// Full nodes are at home, wherever they are reached from.
pub(crate) fn full_ones(alloc: Global, nodes: &[Linked]) -> Result<Vec<bool>, AllocError>
    ensures { IfOk result (λ housed. housed.items ≡ map (λ node. node.full) nodes.now) }
{
    nodes.iter().map(|node| node.full).collect(alloc)
}

/// Nodes are at home that are reached by their owner, where that is one of at most 64 subvolumes.
pub(crate) fn house(
    alloc: Global,
    housed: &mut [bool],
    nodes: &[Linked],
    below: &[Sequence<usize>],
    group: &[(RootId, Address)],
) -> Result<(), AllocError>
    requires same { length housed.old ≡ length nodes.now }
    requires ascend { IsStrictlyIncreasing (map (λ node. node.address) nodes.now) }
    requires below { AreBelow nodes.now below.now }
    requires numbers { IsStrictlyIncreasing (keys_of group.now) }
    requires few { length group.now ≤ 64 }
    ensures { OnOk result (AreHousedToo nodes.now group.now housed.old housed.new) }
{
    if own_any(nodes, group, housed) {
        let rows = marks_of(alloc, nodes, below, group)?;
        house_marked(housed, nodes, group, rows.as_slice());
    }
    Ok(())
}

/// Whether one of some subvolumes owns a node that isn't known to be at home.
fn own_any(nodes: &[Linked], group: &[(RootId, Address)], housed: &[bool]) -> bool
    requires same { length housed.now ≡ length nodes.now }
    requires numbers { IsStrictlyIncreasing (keys_of group.now) }
    ensures { result ≡ false → OwnNone nodes.now group.now housed.now }
{
    for (i, node) in nodes.iter().enumerate() {
        if !housed[i] && place_of_root(group, node.owner).is_some() {
            return true;
        }
    }
    false
}

/// Nodes are at home that have their owner's mark.
fn house_marked(housed: &mut [bool], nodes: &[Linked], group: &[(RootId, Address)], rows: &[u64])
    requires same { length housed.old ≡ length nodes.now }
    requires rows { length rows.now ≡ length nodes.now }
    requires numbers { IsStrictlyIncreasing (keys_of group.now) }
    requires few { length group.now ≤ 64 }
    requires reach { AreOfReach nodes.now group.now rows.now }
    ensures { AreHousedToo nodes.now group.now housed.old housed.new }
{
    for (i, node) in nodes.iter().enumerate() {
        if has_owners_mark(group, rows[i], node) {
            housed[i] = true;
        }
    }
}

/// Whether the mark of a node's owner is among others.
fn has_owners_mark(group: &[(RootId, Address)], marks: u64, node: &Linked) -> bool
    requires numbers { IsStrictlyIncreasing (keys_of group.now) }
    requires few { length group.now ≤ 64 }
    ensures { IsTrue result ↔ HasOwnersMark group.now marks node.now }
{
    match place_of_root(group, node.owner) {
        Some(bit) => has_mark(marks, bit),
        None => false,
    }
}

/// The address of the first node that isn't known to be at home.
pub(crate) fn first_homeless(nodes: &[Linked], housed: &[bool]) -> Option<Address>
    requires { length housed.now ≡ length nodes.now }
    ensures { MatchOption result (AreAllHoused nodes.now housed.now)
        (λ address. IsFirstHomeless nodes.now housed.now address) }
{
    for (i, node) in nodes.iter().enumerate() {
        if !housed[i] {
            return Some(node.address);
        }
    }
    None
}
