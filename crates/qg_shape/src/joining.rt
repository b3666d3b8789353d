// Two neighbours that become one, or share anew.
ghost use Rattle.std.specs.Prelude.{◌≡◌, ◌⊎◌, ◌+◌, ◌*◌, ◌≤◌, ◌<◌, ◌^◌, ◌++◌, length, take, drop, IfOk, OnOk, OnErr};
ghost use Rattle.std.specs.List.{All, sum_by};
ghost use Rattle.qg_node.specs.NodeText.{IsNodeSize};
ghost use Rattle.qg_shape.specs.Cut.{AreJoined, IsNear};
ghost use Rattle.qg_shape.specs.Filled.{Fits, HasShortBodies, IsThin};
ghost use Rattle.qg_shape.specs.Outcomes.{IsJoined};
ghost use Rattle.qg_shape.specs.Parts.{AreAlike};

use crate::cut::{half, nearest_front};
use crate::part::Part;
use qg_node::{HEADER_BYTES, Node};
use qg_num::{NoMemory, Sequence};

/// What became of two neighbours.
#[derive(Clone, Copy, PartialEq, Eq)]
pub enum Joined {
    /// The left one has all of both, and the right one nothing.
    Whole,
    /// Both have about a half.
    Parted,
}

/// Joins two neighbours of one level, of which one isn't a quarter full: into the left one where that fits, and else
/// both take about a half. Where memory is refused, both stay as they were.
pub fn join(left: &mut Node, right: &mut Node, nodesize: u32) -> Result<Joined, NoMemory>
    requires size { IsNodeSize nodesize }
    requires alike { AreAlike left.old right.old }
    requires left_short { HasShortBodies left.old }
    requires right_short { HasShortBodies right.old }
    requires left_fits { Fits nodesize left.old }
    requires right_fits { Fits nodesize right.old }
    requires thin { IsThin nodesize left.old ⊎ IsThin nodesize right.old }
    ensures joined { IfOk result (λ joined. IsJoined nodesize left.old right.old left.new right.new joined) }
    ensures left_err { OnErr result (left.new ≡ left.old) }
    ensures right_err { OnErr result (right.new ≡ right.old) }
{
    let room = (nodesize as usize - HEADER_BYTES) as u64;
    let first = left.used_bytes() as u64;
    let total = first + right.used_bytes() as u64;
    match left {
        Node::Leaf { items, .. } => match right {
            Node::Leaf { items: others, .. } => join_lists(items, others, room, first, total),
            Node::Inner { .. } => unreachable!(),
        },
        Node::Inner { pointers, .. } => match right {
            Node::Leaf { .. } => unreachable!(),
            Node::Inner {
                pointers: others,
                ..
            } => join_lists(pointers, others, room, first, total),
        },
    }
}

// Joins two lists, of which the first takes `first` bytes and both take `total`.
fn join_lists<T: Part>(
    left: &mut Sequence<T>,
    right: &mut Sequence<T>,
    room: u64,
    first: u64,
    total: u64,
) -> Result<Joined, NoMemory>
    requires left_light { All (λ x. T.weight x ≤ 1049) left.old }
    requires right_light { All (λ x. T.weight x ≤ 1049) right.old }
    requires first { first ≡ sum_by T.weight left.old }
    requires total { total ≡ sum_by T.weight left.old + sum_by T.weight right.old }
    requires wide { 3995 ≤ room }
    requires narrow { room < 2 ^ 31 }
    requires light { total + 1049 ≤ 2 * room }
    ensures joined { IfOk result (λ joined. AreJoined T.weight room (left.old ++ right.old) left.new right.new joined) }
    ensures left_err { OnErr result (left.new ≡ left.old) }
    ensures right_err { OnErr result (right.new ≡ right.old) }
{
    if total <= room {
        left.append(right)?;
        return Ok(Joined::Whole);
    }
    share(left, right, first, half(room, total))?;
    Ok(Joined::Parted)
}

// Moves items over so that the left list takes nearly as much as is aimed at.
fn share<T: Part>(
    left: &mut Sequence<T>,
    right: &mut Sequence<T>,
    first: u64,
    aim: u64,
) -> Result<(), NoMemory>
    requires left_light { All (λ x. T.weight x ≤ 1049) left.old }
    requires right_light { All (λ x. T.weight x ≤ 1049) right.old }
    requires first { first ≡ sum_by T.weight left.old }
    requires heavy { aim < sum_by T.weight left.old + sum_by T.weight right.old }
    requires small { aim < 2 ^ 32 }
    ensures whole { OnOk result (left.new ++ right.new ≡ left.old ++ right.old) }
    ensures near { OnOk result (IsNear 524 524 aim (sum_by T.weight left.new)) }
    ensures left_err { OnErr result (left.new ≡ left.old) }
    ensures right_err { OnErr result (right.new ≡ right.old) }
{
    if aim < first {
        let count = nearest_front(left.as_slice(), aim);
        move_right(left, count, right)
    } else {
        let count = nearest_front(right.as_slice(), aim - first);
        move_left(left, right, count)
    }
}

// Moves what stands from an index on to the front of the right list. Where memory is refused, both stay as they were.
fn move_right<T: Part>(
    left: &mut Sequence<T>,
    index: usize,
    right: &mut Sequence<T>,
) -> Result<(), NoMemory>
    requires { index ≤ length left.old }
    ensures kept { OnOk result (left.new ≡ take index left.old) }
    ensures moved { OnOk result (right.new ≡ drop index left.old ++ right.old) }
    ensures left_err { OnErr result (left.new ≡ left.old) }
    ensures right_err { OnErr result (right.new ≡ right.old) }
{
    let mut moved = T::copies(left.allocator(), &left.as_slice()[index..])?;
    moved.append(right)?;
    left.remove_range(index, left.len());
    *right = moved;
    Ok(())
}

// Moves so many from the front of the right list to the end of the left one. Where memory is refused, both stay as they
// were.
fn move_left<T: Part>(
    left: &mut Sequence<T>,
    right: &mut Sequence<T>,
    count: usize,
) -> Result<(), NoMemory>
    requires { count ≤ length right.old }
    ensures moved { OnOk result (left.new ≡ left.old ++ take count right.old) }
    ensures kept { OnOk result (right.new ≡ drop count right.old) }
    ensures left_err { OnErr result (left.new ≡ left.old) }
    ensures right_err { OnErr result (right.new ≡ right.old) }
{
    let mut moved = T::copies(right.allocator(), &right.as_slice()[..count])?;
    left.append(&mut moved)?;
    right.remove_range(0, count);
    Ok(())
}
