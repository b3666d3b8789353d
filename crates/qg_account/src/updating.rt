// The counters of groups, moved by a change of owners.
ghost use Rattle.std.specs.Prelude.{◌≡◌, true, slice_get, Some, IfErr, IfOk, OnErr, OnOk};
ghost use Rattle.std.specs.List.{Contains};
ghost use Rattle.std.specs.List.Sorted.{IsStrictlySortedBy};
ghost use Rattle.std.specs.Ordering.{nat_cmp};
ghost use Rattle.qg_num.specs.declared.counters.Counters.{Counters as CountersValue};
ghost use Rattle.qg_image.specs.Members.{is_member};
ghost use Rattle.qg_image.specs.Table.{keys_of};
ghost use Rattle.qg_qgroups.specs.Groups.{has_number, is_kept, IsSound};
ghost use Rattle.qg_account.specs.Moves.{moved, CanMove};
ghost use Rattle.qg_account.specs.Updating.{with_change, with_counters, CanTake, HaveMovedInPart};
ghost use Rattle.qg_account.specs.declared.fault.CounterFault.TheVariants as why;

use crate::candidates::{candidates, take_least};
use crate::fault::CounterFault;
use crate::moving::moved_by;
use crate::pivots::pivots;
use crate::standing::standing_of;
use qg_num::{Counters, GroupId, RootId, Sequence};
use qg_qgroups::Hierarchy;
use std::alloc::Global;

/// Moves the counters of groups by a change of owners: so many bytes begin somewhere that these subvolumes reached
/// before and reach now (btrfs-qgroup(8), "referenced" and "exclusive"). It looks at the groups above an owner that
/// went or came, and at those above one that stays, if one does, where owners ascend; at no other group, and at no
/// group's members.
///
/// `Broken` comes exactly where a counter can't give or take what is asked of it. After a fault some groups may have
/// moved.
pub fn update(
    alloc: Global,
    counters: &mut Sequence<(GroupId, Counters)>,
    hierarchy: &Hierarchy,
    bytes: u64,
    before: &[RootId],
    now: &[RootId],
) -> Result<(), CounterFault>
    requires sound { IsSound hierarchy.now }
    requires groups { keys_of counters.old ≡ hierarchy.now.groups }
    ensures groups { keys_of counters.new ≡ hierarchy.now.groups }
    ensures moved { OnOk result (counters.new ≡ with_change hierarchy.now
        (record { bytes = bytes; before = before.now; now = now.now }) counters.old) }
    ensures taken { OnOk result (CanTake hierarchy.now
        (record { bytes = bytes; before = before.now; now = now.now }) counters.old) }
    ensures broken { IfErr result (λ fault. fault ≡ why.Broken → CanTake hierarchy.now
        (record { bytes = bytes; before = before.now; now = now.now }) counters.old → ⊥) }
    ensures err { OnErr result (HaveMovedInPart hierarchy.now
        (record { bytes = bytes; before = before.now; now = now.now }) counters.old counters.new) }
{
    let found = pivots(alloc, before, now)?;
    let mut left = candidates(alloc, hierarchy, found.as_slice())?;
    while let Some(number) = take_least(&mut left) {
        let group = GroupId::from_number(number);
        update_group(alloc, counters, hierarchy, group, bytes, before, now)?;
    }
    Ok(())
}

// Moves the counters of one group.
fn update_group(
    alloc: Global,
    counters: &mut Sequence<(GroupId, Counters)>,
    hierarchy: &Hierarchy,
    group: GroupId,
    bytes: u64,
    before: &[RootId],
    now: &[RootId],
) -> Result<(), CounterFault>
    requires sound { IsSound hierarchy.now }
    requires groups { keys_of counters.old ≡ hierarchy.now.groups }
    requires kept { is_kept hierarchy.now group ≡ true }
    ensures moved { OnOk result (counters.new ≡ with_counters group (moved (is_member hierarchy.now group)
        (record { bytes = bytes; before = before.now; now = now.now })) counters.old) }
    ensures taken { OnOk result ((kept : CountersValue) → Contains counters.old (group, kept)
        → CanMove (is_member hierarchy.now group) (record { bytes = bytes; before = before.now; now = now.now }) kept) }
    ensures broken { IfErr result (λ fault. fault ≡ why.Broken
        → (kept : CountersValue) × Contains counters.old (group, kept) × (CanMove (is_member hierarchy.now group)
        (record { bytes = bytes; before = before.now; now = now.now }) kept → ⊥)) }
    ensures err { OnErr result (counters.new ≡ counters.old) }
{
    let place = place_of(counters.as_slice(), group);
    let kept = counters.as_slice()[place].1;
    let after = counters_after(alloc, hierarchy, group, bytes, before, now, kept)?;
    counters.set(place, (group, after));
    Ok(())
}

// The counters of a kept group after the change.
fn counters_after(
    alloc: Global,
    hierarchy: &Hierarchy,
    group: GroupId,
    bytes: u64,
    before: &[RootId],
    now: &[RootId],
    kept: Counters,
) -> Result<Counters, CounterFault>
    requires sound { IsSound hierarchy.now }
    requires kept { is_kept hierarchy.now group ≡ true }
    ensures moved { IfOk result (λ after. after ≡ moved (is_member hierarchy.now group)
        (record { bytes = bytes; before = before.now; now = now.now }) kept) }
    ensures taken { OnOk result (CanMove (is_member hierarchy.now group)
        (record { bytes = bytes; before = before.now; now = now.now }) kept) }
    ensures broken { IfErr result (λ fault. fault ≡ why.Broken → CanMove (is_member hierarchy.now group)
        (record { bytes = bytes; before = before.now; now = now.now }) kept → ⊥) }
{
    let was = standing_of(alloc, hierarchy, group, before)?;
    let is = standing_of(alloc, hierarchy, group, now)?;
    match moved_by(kept, bytes, was, is) {
        Some(after) => Ok(after),
        None => Err(CounterFault::Broken),
    }
}

// Where the counters of a group stand that has some.
fn place_of(counters: &[(GroupId, Counters)], group: GroupId) -> usize
    requires ascending { IsStrictlySortedBy nat_cmp (keys_of counters.now) }
    requires there { has_number group (keys_of counters.now) ≡ true }
    ensures { slice_get (keys_of counters.now) result ≡ Some group }
{
    counters.partition_point(|entry| entry.0 < group)
}
