// How a reservation is judged by the limits on the way up.
ghost use Rattle.std.specs.Prelude.{◌≡◌, IfOk};
ghost use Rattle.std.specs.List.Sorted.{IsStrictlySortedBy};
ghost use Rattle.std.specs.Ordering.{nat_cmp};
ghost use Rattle.qg_image.specs.Table.{keys_of};
ghost use Rattle.qg_qgroups.specs.Judging.{counted_path, counters_at, over_in, IfPath};

use crate::groups::find_group;
use qg_image::Group;
use qg_num::{Counters, GroupId, GroupList, NoMemory, Sequence, Which};
use std::alloc::Global;

/// What a reservation into a subvolume is answered (btrfs-qgroup(8), "limits").
#[derive(Drop)]
pub enum ReservationAnswer {
    /// A group would be over a limit of its.
    Over(GroupId, Which),
    /// No limit is in the way; the reservation counts in these groups, ascending.
    Path(GroupList),
}

/// The answer by the group that would be over a limit of its, if there is one, and by the path.
pub(crate) fn answer_by(found: Option<(GroupId, Which)>, path: GroupList) -> ReservationAnswer
    ensures over { over_in result ≡ found }
    ensures path { IfPath result (λ taken. taken ≡ path) }
{
    match found {
        Some((group, which)) => ReservationAnswer::Over(group, which),
        None => ReservationAnswer::Path(path),
    }
}

/// The groups of a path with their stored counters.
pub(crate) fn counted(
    alloc: Global,
    groups: &[(GroupId, Group)],
    path: &[GroupId],
) -> Result<Sequence<(GroupId, Counters)>, NoMemory>
    requires { IsStrictlySortedBy nat_cmp (keys_of groups.now) }
    ensures { IfOk result (λ counted. counted ≡ counted_path groups.now path.now) }
{
    let mut counted = Sequence::with_capacity(alloc, path.len())?;
    for group in path {
        counted.push((*group, counters_of(groups, *group)))?;
    }
    Ok(counted)
}

// The stored counters of a group, and nothing where it isn't there.
fn counters_of(groups: &[(GroupId, Group)], number: GroupId) -> Counters
    requires { IsStrictlySortedBy nat_cmp (keys_of groups.now) }
    ensures { result ≡ counters_at groups.now number }
{
    match find_group(groups, number) {
        Some(group) => group.counters,
        None => Counters { rfer: 0, excl: 0 },
    }
}
