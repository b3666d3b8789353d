// Where a list is cut so that both parts fill a node. Only weights are seen, in bytes.
ghost use Rattle.std.specs.Prelude.{◌≡◌, ◌<◌, ◌≤◌, ◌+◌, ◌*◌, ◌^◌, ℕ, length, take, drop};
ghost use Rattle.std.specs.List.{All, sum_by};
ghost use Rattle.qg_shape.specs.Cut.{IsAim, IsCut, IsNear};

use crate::part::Weighed;

/// Where a list is cut that takes `total`, too much for one node. `newest` is the index of what was put in last.
///
/// Where keys come in ascending, what is put in last is the last one. The front gets no more then, so it is left as
/// full as can be. Else both parts get about a half.
pub(crate) fn cut_index<T: Weighed>(list: &[T], room: u64, total: u64, newest: usize) -> usize
    requires light { All (λ x. T.weight x ≤ 1049) list.now }
    requires total { total ≡ sum_by T.weight list.now }
    requires wide { 3995 ≤ room }
    requires narrow { room < 2 ^ 31 }
    requires heavy { room < total }
    requires by_one { total ≤ room + 1049 }
    ensures within { result ≤ length list.now }
    ensures cut { IsCut T.weight room list.now (take result list.now) (drop result list.now) }
{
    if newest == list.len() - 1 {
        longest_front(list, latest(room, total))
    } else {
        nearest_front(list, half(room, total))
    }
}

/// How many of a list, from its first on, take no more than so many bytes.
fn longest_front<T: Weighed>(list: &[T], most: u64) -> usize
    requires light { All (λ x. T.weight x ≤ 1049) list.now }
    requires heavy { most < sum_by T.weight list.now }
    requires small { most < 2 ^ 32 }
    ensures within { result ≤ length list.now }
    ensures near { IsNear 1048 0 most (sum_by T.weight (take result list.now)) }
{
    let mut taken = 0;
    for (i, x) in list.iter().enumerate() {
        let more = taken + x.weight();
        if more > most {
            return i;
        }
        taken = more;
    }
    unreachable!()
}

/// How many of a list, from its first on, take about as many bytes as are aimed at: one more or one less comes no
/// nearer.
pub(crate) fn nearest_front<T: Weighed>(list: &[T], aim: u64) -> usize
    requires light { All (λ x. T.weight x ≤ 1049) list.now }
    requires heavy { aim < sum_by T.weight list.now }
    requires small { aim < 2 ^ 32 }
    ensures within { result ≤ length list.now }
    ensures near { IsNear 524 524 aim (sum_by T.weight (take result list.now)) }
{
    let mut taken = 0;
    for (i, x) in list.iter().enumerate() {
        let more = taken + x.weight();
        if taken + more > 2 * aim {
            return i;
        }
        taken = more;
    }
    list.len()
}

/// The most that a front may take so that the rest is a quarter full.
fn latest(room: u64, total: u64) -> u64
    requires wide { 3995 ≤ room }
    requires narrow { room < 2 ^ 31 }
    requires heavy { room < total }
    requires light { total + 1049 ≤ 2 * room }
    ensures { IsAim 1048 0 room total result }
{
    room.min(total - room.div_ceil(4))
}

/// A half of what is cut.
pub(crate) fn half(room: u64, total: u64) -> u64
    requires wide { 3995 ≤ room }
    requires narrow { room < 2 ^ 31 }
    requires heavy { room < total }
    requires light { total + 1049 ≤ 2 * room }
    ensures { IsAim 524 524 room total result }
{
    total / 2
}
