// What is looked up in quota, made anew.
ghost use Rattle.std.specs.Prelude.{◌≡◌, ℕ, [], map, IfOk, OnOk};
ghost use Rattle.std.specs.List.Sorted.{IsStrictlySortedBy};
ghost use Rattle.std.specs.Ordering.{nat_cmp};
ghost use Rattle.qg_image.specs.Table.{keys_of};
ghost use Rattle.qg_image.specs.Members.{hierarchy_of};
ghost use Rattle.qg_machine.specs.GroupChange.{new_group};
ghost use Rattle.qg_qgroups.specs.Groups.{IsSound};
ghost use Rattle.qg_qgroups.specs.Limit.{held_of, maxima_at, maxima_of};
ghost use Rattle.qg_qgroups.specs.Tracked.{limits_by};

use crate::groups::new_group;
use crate::parts::{set_both, want_of_memory};
use crate::{Hierarchy, Limits};
use qg_image::{Group, Quota};
use qg_num::{Generation, GroupId, NoMemory, RootId, Sequence};
use std::alloc::Global;

/// The hierarchy of a quota.
pub(crate) fn hierarchy_from(alloc: Global, quota: &Quota) -> Result<Hierarchy, NoMemory>
    requires sound { IsSound (hierarchy_of quota.now) }
    ensures { IfOk result (λ hierarchy. hierarchy ≡ hierarchy_of quota.now) }
{
    let mut hierarchy = unrelated(alloc, quota.groups.as_slice())?;
    relate(&mut hierarchy, quota.pairs.as_slice())?;
    Ok(hierarchy)
}

// Groups without relations.
fn unrelated(alloc: Global, groups: &[(GroupId, Group)]) -> Result<Hierarchy, NoMemory>
    requires { IsStrictlySortedBy nat_cmp (keys_of groups.now) }
    ensures groups { IfOk result (λ hierarchy. hierarchy.groups ≡ keys_of groups.now) }
    ensures pairs { IfOk result (λ hierarchy. hierarchy.pairs ≡ []) }
{
    let mut hierarchy = Hierarchy::new(alloc);
    for (group, _) in groups {
        if let Err(fault) = hierarchy.create(*group) {
            return Err(want_of_memory(fault));
        }
    }
    Ok(hierarchy)
}

// Groups without relations are related so.
fn relate(hierarchy: &mut Hierarchy, pairs: &[(GroupId, GroupId)]) -> Result<(), NoMemory>
    requires bare { hierarchy.old.pairs ≡ [] }
    requires sound { IsSound (record hierarchy.old { pairs = pairs.now }) }
    ensures { OnOk result (hierarchy.new ≡ record hierarchy.old { pairs = pairs.now }) }
{
    for (member, parent) in pairs {
        if let Err(fault) = hierarchy.assign(*member, *parent) {
            return Err(want_of_memory(fault));
        }
    }
    Ok(())
}

/// The limits of groups. Nothing is held.
pub(crate) fn limits_from(alloc: Global, groups: &[(GroupId, Group)]) -> Result<Limits, NoMemory>
    requires { IsStrictlySortedBy nat_cmp (keys_of groups.now) }
    ensures limits { IfOk result (λ limits. (group : ℕ)
        → maxima_of limits group ≡ maxima_at (limits_by groups.now) group) }
    ensures held { IfOk result (λ limits. (group : ℕ) → held_of limits group ≡ 0) }
{
    let mut limits = Limits::new(alloc);
    for (number, group) in groups {
        set_both(&mut limits, *number, group.max_rfer, group.max_excl)?;
    }
    Ok(limits)
}

/// A new group for each subvolume.
pub(crate) fn groups_of<T>(
    alloc: Global,
    subs: &[(RootId, T)],
    stamp: Generation,
) -> Result<Sequence<(GroupId, Group)>, NoMemory>
    ensures { IfOk result (λ groups. groups ≡ map (λ sub. (sub, new_group stamp)) (keys_of subs.now)) }
{
    let mut groups = Sequence::with_capacity(alloc, subs.len())?;
    for (sub, _) in subs {
        groups.push((GroupId::from_number(sub.value()), new_group(stamp)))?;
    }
    Ok(groups)
}
