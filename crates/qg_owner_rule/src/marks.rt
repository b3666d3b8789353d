// Which of some subvolumes reach each node, by marks.
ghost use Rattle.std.specs.Prelude.{◌≡◌, ◌≤◌, ◌<◌, ◌↔◌, map, length, IfOk, IsTrue, vec_len};
ghost use Rattle.std.specs.Int.{bit_at};
ghost use Rattle.std.specs.List.{All};
ghost use Rattle.std.specs.List.Sorted.{IsStrictlyIncreasing};
ghost use Rattle.qg_owner_rule.specs.Marks.{AreBelow, HaveAlso, AreSpread, HaveGone, AreOfRoots, AreOfReach};

use crate::Linked;
use crate::places::place_of_node;
use qg_num::{Address, RootId, Sequence};
use std::alloc::{AllocError, Global};

/// How many subvolumes have a mark of their own in a row.
pub(crate) const MARKS: usize = 64;

/// For each node the marks of those subvolumes that reach it, of at most 64 subvolumes.
pub(crate) fn marks_of(
    alloc: Global,
    nodes: &[Linked],
    below: &[Sequence<usize>],
    group: &[(RootId, Address)],
) -> Result<Vec<u64>, AllocError>
    requires ascend { IsStrictlyIncreasing (map (λ node. node.address) nodes.now) }
    requires below { AreBelow nodes.now below.now }
    requires few { length group.now ≤ 64 }
    ensures same { IfOk result (λ rows. vec_len rows ≡ length nodes.now) }
    ensures reach { IfOk result (λ rows. AreOfReach nodes.now group.now rows.items) }
{
    let mut rows = root_marks(alloc, nodes, group)?;
    spread(rows.as_mut_slice(), nodes, below);
    Ok(rows)
}

/// For each node the marks of those subvolumes whose root it is.
fn root_marks(
    alloc: Global,
    nodes: &[Linked],
    group: &[(RootId, Address)],
) -> Result<Vec<u64>, AllocError>
    requires ascend { IsStrictlyIncreasing (map (λ node. node.address) nodes.now) }
    requires few { length group.now ≤ 64 }
    ensures same { IfOk result (λ rows. vec_len rows ≡ length nodes.now) }
    ensures roots { IfOk result (λ rows. AreOfRoots nodes.now group.now rows.items) }
{
    let mut rows = vec![in alloc; 0u64; nodes.len()]?;
    for (bit, root) in group.iter().enumerate() {
        if let Some(place) = place_of_node(nodes, root.1) {
            rows[place] |= 1 << bit;
        }
    }
    Ok(rows)
}

/// Gives the marks of each node to all that pointers lead to from there.
///
/// A pointer leads one level down, so the marks of a level are all there once those above have been given on.
fn spread(rows: &mut [u64], nodes: &[Linked], below: &[Sequence<usize>])
    requires same { length rows.old ≡ length nodes.now }
    requires ascend { IsStrictlyIncreasing (map (λ node. node.address) nodes.now) }
    requires below { AreBelow nodes.now below.now }
    ensures { HaveGone nodes.now rows.old rows.new }
{
    let highest = highest_level(nodes);
    for depth in 0..highest {
        spread_level(rows, nodes, below, highest - depth);
    }
}

/// The highest level among nodes, or 0.
pub fn highest_level(nodes: &[Linked]) -> u8
    ensures { All (λ node. node.level ≤ result) nodes.now }
{
    nodes.iter().map(|node| node.level).max().unwrap_or(0)
}

/// Gives the marks of each node of a level to those that it points to.
fn spread_level(rows: &mut [u64], nodes: &[Linked], below: &[Sequence<usize>], level: u8)
    requires same { length rows.old ≡ length nodes.now }
    requires below { AreBelow nodes.now below.now }
    ensures { AreSpread nodes.now nodes.now level rows.old rows.new }
{
    for (i, node) in nodes.iter().enumerate() {
        if node.level == level && rows[i] != 0 {
            let marks = rows[i];
            add_marks(rows, below[i].as_slice(), marks);
        }
    }
}

/// Puts marks on the nodes at some indices.
fn add_marks(rows: &mut [u64], places: &[usize], marks: u64)
    requires { All (λ place. place < length rows.old) places.now }
    ensures { HaveAlso places.now marks rows.old rows.new }
{
    for place in places {
        rows[*place] |= marks;
    }
}

/// Whether a mark is among others.
pub(crate) fn has_mark(marks: u64, bit: usize) -> bool
    requires { bit < 64 }
    ensures { IsTrue result ↔ (bit_at marks bit ≡ 1) }
{
    (marks >> bit) & 1 == 1
}
