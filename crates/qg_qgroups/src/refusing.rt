// Why commands of quota and lists of snapshots are refused, by quota and the subvolumes alone.
ghost use Rattle.std.specs.Prelude.{◌≡◌, ◌==◌, ◌||◌, ℕ, [], ◌∷◌, length, not, IfOk, IfSome, None, OnOk, Some};
ghost use Rattle.std.specs.List.{list_any};
ghost use Rattle.qg_num.specs.declared.command.Command.TheVariants.{Assign, GroupCreate, GroupDestroy, QuotaOn, Remove};
ghost use Rattle.qg_num.specs.declared.refusal.Refusal.TheVariants as reason;
ghost use Rattle.qg_image.specs.Table.{keys_of};
ghost use Rattle.qg_image.specs.ItemMeaning.{first_some};
ghost use Rattle.qg_image.specs.Members.{level_of_group};
ghost use Rattle.qg_machine.specs.GroupChange.{has_pair};
ghost use Rattle.qg_machine.specs.Refusals.{refuse};
ghost use Rattle.qg_qgroups.specs.Groups.{has_number};
ghost use Rattle.qg_qgroups.specs.Changing.{change_refusal, is_missing};
ghost use Rattle.qg_qgroups.specs.OnOrOff.{parents_refusal, snap_refusal};
ghost use Rattle.qg_qgroups.specs.Tracked.{IsTracked, quota_of};

use crate::QuotaState;
use crate::groups::find_group;
use qg_num::{Command, GroupId, NoMemory, Refusal, RootId};
use std::alloc::Global;
use std::collections::BTreeSet;

// The most groups, and the most relations, that an image can have.
const MOST_GROUPS: usize = 4096;

const MOST_RELATIONS: usize = 16384;

/// Why a command of quota is refused, before the room for its commit is looked at, where these are the subvolumes,
/// whether they live or not. Of any other command nothing is asked here.
pub fn refusal_of<T>(
    quota: &Option<QuotaState>,
    subvolumes: &[(RootId, T)],
    command: &Command,
) -> Option<Refusal>
    requires { IfSome quota.now IsTracked }
    ensures { result ≡ change_refusal (quota_of quota.now) (keys_of subvolumes.now) command.now }
{
    match quota {
        None => refusal_while_off(subvolumes, command),
        Some(state) => refusal_while_on(state, subvolumes, command),
    }
}

/// Why a snapshot that is to be put into these groups is refused, before limits are looked at.
pub fn refusal_of_parents(
    alloc: Global,
    quota: &Option<QuotaState>,
    parents: &[GroupId],
) -> Result<Option<Refusal>, NoMemory>
    requires { IfSome quota.now IsTracked }
    ensures { IfOk result (λ why. why ≡ snap_refusal (quota_of quota.now) parents.now) }
{
    match quota {
        None => Ok(refusal_without_groups(parents)),
        Some(state) => refusal_of_each(alloc, state, parents),
    }
}

// While quota is off, it can be turned on, where there are no more subvolumes than an image can have groups.
fn refusal_while_off<T>(subvolumes: &[(RootId, T)], command: &Command) -> Option<Refusal>
    ensures { result ≡ change_refusal None (keys_of subvolumes.now) command.now }
{
    match command {
        Command::QuotaOn => refusal_of_on(subvolumes),
        Command::QuotaOff => Some(Refusal::NoQuota),
        Command::GroupCreate { .. } => Some(Refusal::NoQuota),
        Command::GroupDestroy { .. } => Some(Refusal::NoQuota),
        Command::Assign { .. } => Some(Refusal::NoQuota),
        Command::Remove { .. } => Some(Refusal::NoQuota),
        Command::Limit { .. } => Some(Refusal::NoQuota),
        _ => None,
    }
}

// There are more subvolumes than an image can have groups.
fn refusal_of_on<T>(subvolumes: &[(RootId, T)]) -> Option<Refusal>
    ensures { result ≡ change_refusal None (keys_of subvolumes.now) QuotaOn }
{
    if subvolumes.len() > MOST_GROUPS {
        return Some(Refusal::TooMany);
    }
    None
}

// While quota is on, each command of groups has its own.
fn refusal_while_on<T>(
    state: &QuotaState,
    subvolumes: &[(RootId, T)],
    command: &Command,
) -> Option<Refusal>
    requires { IsTracked state.now }
    ensures { result ≡ change_refusal (Some state.now.quota) (keys_of subvolumes.now) command.now }
{
    match command {
        Command::QuotaOn => Some(Refusal::QuotaOn),
        Command::QuotaOff => None,
        Command::GroupCreate { group } => refusal_of_create(state, *group),
        Command::GroupDestroy { group } => refusal_of_destroy(state, subvolumes, *group),
        Command::Assign { member, parent } => refusal_of_assign(state, *member, *parent),
        Command::Remove { member, parent } => refusal_of_remove(state, *member, *parent),
        Command::Limit { group, .. } => refusal_of_limit(state, *group),
        _ => None,
    }
}

// A group is not made at level 0, nor twice, nor past the most that there can be.
fn refusal_of_create(state: &QuotaState, group: GroupId) -> Option<Refusal>
    requires { IsTracked state.now }
    ensures { result ≡ change_refusal (Some state.now.quota) [] (GroupCreate group) }
{
    if group.level() == 0 {
        return Some(Refusal::Level);
    }
    if has_group(state, group) {
        return Some(Refusal::GroupThere);
    }
    if state.quota.groups.len() >= MOST_GROUPS {
        return Some(Refusal::TooMany);
    }
    None
}

// A group that goes is there, has no members, and is no subvolume's.
fn refusal_of_destroy<T>(
    state: &QuotaState,
    subvolumes: &[(RootId, T)],
    group: GroupId,
) -> Option<Refusal>
    requires { IsTracked state.now }
    ensures { result ≡ change_refusal (Some state.now.quota) (keys_of subvolumes.now) (GroupDestroy group) }
{
    if !has_group(state, group) {
        return Some(Refusal::NoGroup);
    }
    if has_members(state.quota.pairs.as_slice(), group) || is_subvolume(subvolumes, group) {
        return Some(Refusal::Busy);
    }
    None
}

// A relation goes up a level, between groups that are there, is made once, and not past the most that there can be.
fn refusal_of_assign(state: &QuotaState, member: GroupId, parent: GroupId) -> Option<Refusal>
    requires { IsTracked state.now }
    ensures { result ≡ change_refusal (Some state.now.quota) [] (Assign member parent) }
{
    if member.level() >= parent.level() {
        return Some(Refusal::Level);
    }
    if !has_group(state, member) {
        return Some(Refusal::NoGroup);
    }
    if !has_group(state, parent) {
        return Some(Refusal::NoGroup);
    }
    if are_related(state.quota.pairs.as_slice(), member, parent) {
        return Some(Refusal::Related);
    }
    if state.quota.pairs.len() >= MOST_RELATIONS {
        return Some(Refusal::TooMany);
    }
    None
}

// A relation that ends is there.
fn refusal_of_remove(state: &QuotaState, member: GroupId, parent: GroupId) -> Option<Refusal>
    ensures { result ≡ change_refusal (Some state.now.quota) [] (Remove member parent) }
{
    if !are_related(state.quota.pairs.as_slice(), member, parent) {
        return Some(Refusal::NotRelated);
    }
    None
}

// A group that is limited is there.
fn refusal_of_limit(state: &QuotaState, group: GroupId) -> Option<Refusal>
    requires { IsTracked state.now }
    ensures { result ≡ is_missing (Some state.now.quota) group }
{
    if !has_group(state, group) {
        return Some(Refusal::NoGroup);
    }
    None
}

// While quota is off, a snapshot can be put into no group.
fn refusal_without_groups(parents: &[GroupId]) -> Option<Refusal>
    ensures { result ≡ snap_refusal None parents.now }
{
    if parents.is_empty() {
        return None;
    }
    Some(Refusal::NoQuota)
}

// Why a snapshot's group can't be put into some groups, one after the other.
fn refusal_of_each(
    alloc: Global,
    state: &QuotaState,
    parents: &[GroupId],
) -> Result<Option<Refusal>, NoMemory>
    requires { IsTracked state.now }
    ensures { IfOk result (λ why. why ≡ snap_refusal (Some state.now.quota) parents.now) }
{
    let mut earlier = BTreeSet::new(alloc);
    for parent in parents {
        let refused = refusal_of_parent(state, &earlier, *parent);
        if refused.is_some() {
            return Ok(refused);
        }
        put_number(&mut earlier, parent.number())?;
    }
    Ok(None)
}

// Why it can't be put into one, behind those of these numbers.
fn refusal_of_parent(
    state: &QuotaState,
    earlier: &BTreeSet<u64>,
    parent: GroupId,
) -> Option<Refusal>
    requires { IsTracked state.now }
    ensures { result ≡ first_some (refuse (not (not (level_of_group parent == 0))) reason.Level
        ∷ is_missing (Some state.now.quota) parent ∷ refuse (has_number parent earlier.now.keys) reason.Related ∷ []) }
{
    if parent.level() == 0 {
        return Some(Refusal::Level);
    }
    if !has_group(state, parent) {
        return Some(Refusal::NoGroup);
    }
    if is_named(earlier, parent.number()) {
        return Some(Refusal::Related);
    }
    None
}

// Whether a group is there.
fn has_group(state: &QuotaState, group: GroupId) -> bool
    requires { IsTracked state.now }
    ensures { result ≡ has_number group (keys_of state.now.quota.groups) }
{
    find_group(state.quota.groups.as_slice(), group).is_some()
}

// Whether a group has members.
fn has_members(pairs: &[(GroupId, GroupId)], group: GroupId) -> bool
    ensures { result ≡ list_any (λ pair. pair.1 == group) pairs.now }
{
    for pair in pairs {
        if pair.1 == group {
            return true;
        }
    }
    false
}

// Whether one group is a member of another.
fn are_related(pairs: &[(GroupId, GroupId)], member: GroupId, parent: GroupId) -> bool
    ensures { result ≡ has_pair member parent pairs.now }
{
    for pair in pairs {
        if member == pair.0 && parent == pair.1 {
            return true;
        }
    }
    false
}

// Whether a group has the number of a subvolume.
fn is_subvolume<T>(subvolumes: &[(RootId, T)], group: GroupId) -> bool
    ensures { result ≡ has_number group (keys_of subvolumes.now) }
{
    has_entry(subvolumes, group)
}

// Whether one of some subvolumes has the number of a group.
fn has_entry<T>(subvolumes: &[(RootId, T)], group: GroupId) -> bool
    ensures { result ≡ list_any (λ entry. entry.0 == group) subvolumes.now }
{
    for entry in subvolumes {
        if entry.0.value() == group.number() {
            return true;
        }
    }
    false
}

// Whether a number is in a set.
fn is_named(numbers: &BTreeSet<u64>, number: u64) -> bool
    ensures { result ≡ has_number number numbers.now.keys }
{
    numbers.contains(&number)
}

// Puts a number into a set.
fn put_number(numbers: &mut BTreeSet<u64>, number: u64) -> Result<(), NoMemory>
    ensures { OnOk result ((other : ℕ)
        → has_number other numbers.new.keys ≡ (number == other || has_number other numbers.old.keys)) }
{
    numbers.insert(number)?;
    Ok(())
}
