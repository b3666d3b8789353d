// Groups among others, ascending by number.
ghost use Rattle.std.specs.Prelude.{◌≡◌, ◌<◌, ◌≤◌, ℕ, length, OnOk};
ghost use Rattle.std.specs.List.{AllWithin};
ghost use Rattle.std.specs.List.Sorted.{IsStrictlySortedBy};
ghost use Rattle.std.specs.Ordering.{nat_cmp};
ghost use Rattle.qg_image.specs.Table.{keys_of, value_at, with_value, without_key};
ghost use Rattle.qg_machine.specs.GroupChange.{limits_of, new_group, with_limit};

use qg_image::Group;
use qg_num::{Counters, Generation, GroupId, NoMemory, Sequence, Which};

/// A group that is made in a generation: nothing is counted, and no limit is set.
pub(crate) fn new_group(stamp: Generation) -> Group
    ensures { result ≡ new_group stamp }
{
    Group {
        counters: Counters { rfer: 0, excl: 0 },
        max_rfer: None,
        max_excl: None,
        stamp,
    }
}

/// A group with another limit on referenced bytes, or another on exclusive ones.
pub(crate) fn with_limit(group: Group, which: Which, max: Option<u64>) -> Group
    ensures { result ≡ with_limit which max group }
{
    match which {
        Which::Rfer => Group {
            max_rfer: max,
            ..group
        },
        Which::Excl => Group {
            max_excl: max,
            ..group
        },
    }
}

/// A new group with the limits of another, if there is one.
pub(crate) fn with_limits(group: Group, other: Option<Group>) -> Group
    ensures { (stamp : ℕ) → group ≡ new_group stamp → result ≡ limits_of stamp other }
{
    match other {
        Some(other) => Group {
            max_rfer: other.max_rfer,
            max_excl: other.max_excl,
            ..group
        },
        None => group,
    }
}

// How many groups stand before one of a number.
fn place_of(groups: &[(GroupId, Group)], number: GroupId) -> usize
    requires { IsStrictlySortedBy nat_cmp (keys_of groups.now) }
    ensures bound { result ≤ length groups.now }
    ensures before { AllWithin (λ entry. entry.0 < number) groups.now 0 result }
    ensures behind { AllWithin (λ entry. number ≤ entry.0) groups.now result (length groups.now) }
{
    groups.partition_point(|entry| entry.0 < number)
}

/// The group of a number, if it is there.
pub(crate) fn find_group(groups: &[(GroupId, Group)], number: GroupId) -> Option<Group>
    requires { IsStrictlySortedBy nat_cmp (keys_of groups.now) }
    ensures { result ≡ value_at number groups.now }
{
    let place = place_of(groups, number);
    if place < groups.len() && groups[place].0 == number {
        return Some(groups[place].1);
    }
    None
}

/// Puts a group at its place among the others, or in the place of the one of its number.
pub(crate) fn put_group(
    groups: &mut Sequence<(GroupId, Group)>,
    number: GroupId,
    group: Group,
) -> Result<(), NoMemory>
    requires { IsStrictlySortedBy nat_cmp (keys_of groups.old) }
    ensures { OnOk result (groups.new ≡ with_value number group groups.old) }
{
    let place = place_of(groups.as_slice(), number);
    if place < groups.len() && groups.as_slice()[place].0 == number {
        groups.set(place, (number, group));
        return Ok(());
    }
    groups.insert(place, (number, group))?;
    Ok(())
}

/// Takes the group of a number away, if it is there.
pub(crate) fn take_group(groups: &mut Sequence<(GroupId, Group)>, number: GroupId)
    requires { IsStrictlySortedBy nat_cmp (keys_of groups.old) }
    ensures { groups.new ≡ without_key number groups.old }
{
    let place = place_of(groups.as_slice(), number);
    if place < groups.len() && groups.as_slice()[place].0 == number {
        groups.remove(place);
    }
}
