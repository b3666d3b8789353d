// Which groups each subvolume is a member of.
ghost use Rattle.std.specs.Prelude.{◌≡◌, false, Some, IfOk, MatchOption, slice_get};
ghost use Rattle.std.specs.List.{All};
ghost use Rattle.std.specs.List.Sorted.{IsStrictlyIncreasing};
ghost use Rattle.qg_image.specs.Members.{is_member, level_of_group};
ghost use Rattle.qg_qgroups.specs.Groups.{has_number};
ghost use Rattle.qg_qgroup_counts.specs.GroupsOf.{AreMemberships, ArePlaces};

use qg_num::{Address, GroupId, GroupList, NoMemory, RootId, Sequence};
use qg_qgroups::{HierFault, Hierarchy};
use std::alloc::Global;

/// All groups, ascending.
pub(crate) fn groups_of(hierarchy: &Hierarchy) -> Result<GroupList, NoMemory>
    ensures { IfOk result (λ groups. groups ≡ hierarchy.now.groups) }
{
    match hierarchy.groups() {
        Ok(groups) => Ok(groups),
        Err(_) => Err(NoMemory),
    }
}

/// For each subvolume the indices of the groups that it is a member of, ascending.
pub(crate) fn above_of(
    alloc: Global,
    roots: &[(RootId, Address)],
    hierarchy: &Hierarchy,
    groups: &[GroupId],
) -> Result<Vec<Sequence<usize>>, NoMemory>
    requires lowest { All (λ root. level_of_group root.0 ≡ 0) roots.now }
    requires groups { groups.now ≡ hierarchy.now.groups }
    ensures { IfOk result (λ above. AreMemberships roots.now hierarchy.now above.items) }
{
    let mut above = Vec::with_capacity(alloc, roots.len())?;
    for root in roots {
        above.push(places_above(alloc, root.0, hierarchy, groups)?)?;
    }
    Ok(above)
}

/// The indices of the groups that a subvolume is a member of, ascending. Without a group of its own it is a member of
/// none.
fn places_above(
    alloc: Global,
    subvolume: RootId,
    hierarchy: &Hierarchy,
    groups: &[GroupId],
) -> Result<Sequence<usize>, NoMemory>
    requires lowest { level_of_group subvolume ≡ 0 }
    requires groups { groups.now ≡ hierarchy.now.groups }
    ensures { IfOk result (λ places.
        ArePlaces groups.now (λ group. is_member hierarchy.now group subvolume) places) }
{
    match hierarchy.above(GroupId::from_number(subvolume.value())) {
        Ok(above) => places_of(alloc, groups, above.as_slice()),
        Err(HierFault::NoGroup) => Ok(Sequence::new(alloc)),
        Err(_) => Err(NoMemory),
    }
}

/// The indices of some groups among all, where both ascend. What isn't among all is passed by.
fn places_of(
    alloc: Global,
    groups: &[GroupId],
    above: &[GroupId],
) -> Result<Sequence<usize>, NoMemory>
    requires groups { IsStrictlyIncreasing groups.now }
    requires above { IsStrictlyIncreasing above.now }
    ensures { IfOk result (λ places.
        ArePlaces groups.now (λ group. has_number group above.now) places) }
{
    let mut places = Sequence::new(alloc);
    for group in above {
        if let Some(place) = place_of_group(groups, *group) {
            places.push(place)?;
        }
    }
    Ok(places)
}

/// The index of a group among some that ascend.
fn place_of_group(groups: &[GroupId], group: GroupId) -> Option<usize>
    requires { IsStrictlyIncreasing groups.now }
    ensures { MatchOption result (has_number group groups.now ≡ false)
        (λ place. slice_get groups.now place ≡ Some group) }
{
    groups.binary_search(&group).ok()
}
