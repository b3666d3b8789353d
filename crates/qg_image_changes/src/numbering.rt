// Numbers of subvolumes and groups, and their places in lists.
ghost use Rattle.std.specs.Prelude.{◌≡◌, ◌≢◌, ◌+◌, ◌^◌, ◌<◌, ◌≤◌, ◌==◌, ◌&&◌, ◌||◌, max, All, IfNone, IfSome, IsTrue};
ghost use Rattle.std.specs.Prelude.{is_some, length, nat_le, nat_lt};
ghost use Rattle.std.specs.List.{HoldsAt, filter, fold};
ghost use Rattle.qg_image.specs.ItemMeaning.{is_subvolume_number};
ghost use Rattle.qg_image.specs.Table.{keys_of};
ghost use Rattle.qg_image.specs.Members.{level_of_group};
ghost use Rattle.qg_image.specs.Verdict.{most_groups, most_relations, most_subvolumes};
ghost use Rattle.qg_qgroups.specs.Changing.{groups_in, pairs_in};
ghost use Rattle.qg_qgroups.specs.Tracked.{quota_of};
ghost use Rattle.qg_open_image.specs.Keeping.{IsFitted};
ghost use Rattle.qg_image_changes.specs.Changing.{number_next};

use qg_image::Group;
use qg_num::{GroupId, RootId};
use qg_open_image::{KeptSubvolume, OpenImage};
use qg_qgroups::QuotaState;

/// The most subvolumes, and the most groups, that an image can have.
const MOST_SUBVOLUMES: usize = 4096;

const MOST_GROUPS: usize = 4096;

/// The most relations.
const MOST_RELATIONS: usize = 16384;

/// The number that the next subvolume gets: one more than the greatest of 255, the subvolumes' and those of groups of
/// level 0.
pub fn number_next(kept: &OpenImage) -> u64
    requires fitted { IsFitted kept.now }
    ensures value { result ≡ number_next kept.now }
    ensures some { 255 < result }
    ensures bound { result ≤ 2 ^ 48 }
{
    let last = last_subvolume(kept.snapshots.as_slice());
    last_in_quota(&kept.quota, last) + 1
}

// The greatest of 255 and the numbers of subvolumes.
fn last_subvolume(snapshots: &[(RootId, KeptSubvolume)]) -> u64
    requires numbers { All (λ entry. IsTrue (is_subvolume_number entry.0)) snapshots.now }
    ensures value { result ≡ fold max 255 (keys_of snapshots.now) }
    ensures least { 255 ≤ result }
    ensures bound { result < 2 ^ 48 }
{
    let mut last: u64 = 255;
    for (sub, _) in snapshots {
        last = last.max(sub.value());
    }
    last
}

// The greatest of a number and those of groups of level 0, of which there are none while quota is off.
fn last_in_quota(quota: &Option<QuotaState>, from: u64) -> u64
    requires bound { from < 2 ^ 48 }
    ensures value { result
        ≡ fold max from (filter (λ group. level_of_group group == 0) (groups_in (quota_of quota.now))) }
    ensures least { from ≤ result }
    ensures bound { result < 2 ^ 48 }
{
    match quota {
        None => from,
        Some(state) => last_group(state.quota.groups.as_slice(), from),
    }
}

// The greatest of a number and those of groups of level 0.
fn last_group(groups: &[(GroupId, Group)], from: u64) -> u64
    requires bound { from < 2 ^ 48 }
    ensures value { result ≡ fold max from (filter (λ group. level_of_group group == 0) (keys_of groups.now)) }
    ensures least { from ≤ result }
    ensures bound { result < 2 ^ 48 }
{
    let mut last = from;
    for (group, _) in groups {
        if group.level() == 0 {
            last = last.max(group.number());
        }
    }
    last
}

/// Whether one subvolume more, of this number, with its group while quota is on, and so many relations, would pass a
/// limit.
pub fn are_too_many(kept: &OpenImage, number: u64, relations: usize) -> bool
    requires fitted { IsFitted kept.now }
    ensures { result
        ≡ (nat_le most_subvolumes (length kept.now.snapshots)
        || (is_some (quota_of kept.now.quota) && nat_le most_groups (length (groups_in (quota_of kept.now.quota))))
        || nat_lt most_relations (length (pairs_in (quota_of kept.now.quota)) + relations) || nat_le (2 ^ 48) number) }
{
    kept.snapshots.len() >= MOST_SUBVOLUMES || is_full(&kept.quota, relations) || number >= 1 << 48
}

// Whether one group more, or so many relations, would pass a limit. While quota is off there are no groups.
fn is_full(quota: &Option<QuotaState>, relations: usize) -> bool
    requires few { length (pairs_in (quota_of quota.now)) ≤ most_relations }
    ensures { result
        ≡ ((is_some (quota_of quota.now) && nat_le most_groups (length (groups_in (quota_of quota.now))))
        || nat_lt most_relations (length (pairs_in (quota_of quota.now)) + relations)) }
{
    match quota {
        None => relations > MOST_RELATIONS,
        Some(state) => {
            state.quota.groups.len() >= MOST_GROUPS
                || relations > MOST_RELATIONS - state.quota.pairs.len()
        }
    }
}

/// The place of a subvolume; none exactly where there is none.
pub(crate) fn place_of_snapshot(snapshots: &[(RootId, KeptSubvolume)], sub: RootId) -> Option<usize>
    ensures inside { IfSome result (λ place. place < length snapshots.now) }
    ensures at { IfSome result (λ place. HoldsAt (λ entry. entry.0 ≡ sub) snapshots.now place) }
    ensures none { IfNone result (All (λ entry. entry.0 ≢ sub) snapshots.now) }
{
    for i in 0..snapshots.len() {
        if snapshots[i].0 == sub {
            return Some(i);
        }
    }
    None
}
