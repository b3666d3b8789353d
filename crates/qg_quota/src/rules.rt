// The rules on the quota tree.
ghost use Rattle.std.specs.Prelude.{◌≡◌, ◌<◌, ◌≤◌, ◌*◌, ◌&&◌, length, nat_le};
ghost use Rattle.std.specs.List.{list_all, list_any, AllWithin};
ghost use Rattle.std.specs.List.Sorted.{IsStrictlySortedBy};
ghost use Rattle.std.specs.Ordering.{nat_cmp};
ghost use Rattle.qg_image.specs.Table.{has_key, keys_of, value_at};
ghost use Rattle.qg_machine.specs.GroupChange.{has_pair};
ghost use Rattle.qg_qgroups.specs.Groups.{pair_cmp};
ghost use Rattle.qg_image.specs.Verdict.{are_few, is_group_number, is_limit, is_plain, is_quota, is_status_part};
ghost use Rattle.qg_image.specs.Verdict.{most_groups, most_relations};
ghost use Rattle.qg_quota.specs.QuotaKinds.{are_told, fits_told, Ascends, AreTold};

use crate::told::QuotaItems;
use qg_image::QuotaPart;
use qg_items::{QgroupInfo, QgroupLimit};
use qg_num::{GroupId, RootId};
use qg_tree_items::is_subvolume_number;

// The most groups that are served.
const MOST_GROUPS: usize = 4096;

// The most relations that are served.
const MOST_RELATIONS: usize = 16384;

/// Whether the quota items, which tell this, fit each other and the live subvolumes.
pub(crate) fn is_quota(told: &QuotaItems, live: &[RootId], parts: &[QuotaPart]) -> bool
    requires told { AreTold parts.now told.now }
    requires ascends { Ascends told.now }
    ensures { result ≡ is_quota live.now parts.now }
{
    are_told(told, live, parts)
}

// The same, by what each kind tells.
fn are_told(told: &QuotaItems, live: &[RootId], parts: &[QuotaPart]) -> bool
    requires { Ascends told.now }
    ensures { result ≡ are_told told.now live.now parts.now }
{
    has_status(parts) && are_fitting(told, parts) && are_counted(told, live)
}

fn has_status(parts: &[QuotaPart]) -> bool
    ensures { result ≡ list_any is_status_part parts.now }
{
    parts
        .iter()
        .any(|part| matches!(part, QuotaPart::Status { .. }))
}

fn are_fitting(told: &QuotaItems, parts: &[QuotaPart]) -> bool
    requires { Ascends told.now }
    ensures { result ≡ list_all (fits_told told.now) parts.now }
{
    for part in parts {
        if !fits_told(told, part) {
            return false;
        }
    }
    true
}

// Whether an item fits the others.
fn fits_told(told: &QuotaItems, part: &QuotaPart) -> bool
    requires { Ascends told.now }
    ensures { result ≡ fits_told told.now part.now }
{
    match part {
        QuotaPart::Status { .. } => true,
        QuotaPart::Info { group, info } => {
            value_of(told.limits.as_slice(), *group).is_some()
                && is_group_number(*group)
                && is_plain(info)
        }
        QuotaPart::Limits { group, limit } => {
            value_of(told.infos.as_slice(), *group).is_some() && is_limit(limit)
        }
        QuotaPart::Relation { group, other } => {
            has_relation(told.relations.as_slice(), other.number(), group.number())
                && value_of(told.infos.as_slice(), *group).is_some()
                && group.level() != other.level()
        }
    }
}

/// What stands under the number of a group, if anything does.
pub(crate) fn value_of<T: Copy>(entries: &[(GroupId, T)], group: GroupId) -> Option<T>
    requires { IsStrictlySortedBy nat_cmp (keys_of entries.now) }
    ensures { result ≡ value_at group entries.now }
{
    let place = place_of(entries, group);
    if place < entries.len() && entries[place].0 == group {
        return Some(entries[place].1);
    }
    None
}

// How many entries stand before one of a number.
fn place_of<T>(entries: &[(GroupId, T)], group: GroupId) -> usize
    requires { IsStrictlySortedBy nat_cmp (keys_of entries.now) }
    ensures bound { result ≤ length entries.now }
    ensures before { AllWithin (λ entry. entry.0 < group) entries.now 0 result }
    ensures behind { AllWithin (λ entry. group ≤ entry.0) entries.now result (length entries.now) }
{
    entries.partition_point(|entry| entry.0 < group)
}

// Whether two numbers are a pair of some that ascend.
fn has_relation(relations: &[(u64, u64)], of: u64, other: u64) -> bool
    requires { IsStrictlySortedBy pair_cmp relations.now }
    ensures { result ≡ has_pair of other relations.now }
{
    relations.binary_search(&(of, other)).is_ok()
}

// Whether a group of level 0 is that of a number that a subvolume may have.
fn is_group_number(group: GroupId) -> bool
    ensures { result ≡ is_group_number group }
{
    group.level() != 0 || is_subvolume_number(group.id())
}

// Whether the compressed counters are the plain ones.
fn is_plain(info: &QgroupInfo) -> bool
    ensures { result ≡ is_plain info.now }
{
    info.rfer_cmpr == info.rfer && info.excl_cmpr == info.excl
}

// Whether a limit that is not set is 0.
fn is_limit(limit: &QgroupLimit) -> bool
    ensures { result ≡ is_limit limit.now }
{
    (limit.flags % 2 == 1 || limit.max_rfer == 0)
        && (limit.flags / 2 % 2 == 1 || limit.max_excl == 0)
}

// Whether each live subvolume's group has counters.
fn are_counted(told: &QuotaItems, live: &[RootId]) -> bool
    requires { Ascends told.now }
    ensures { result ≡ list_all (λ sub. has_key sub told.now.infos) live.now }
{
    for sub in live {
        if value_of(told.infos.as_slice(), GroupId::from_number(sub.value())).is_none() {
            return false;
        }
    }
    true
}

/// Whether there are no more groups and relations than are served.
pub(crate) fn are_few(told: &QuotaItems, parts: &[QuotaPart]) -> bool
    requires { AreTold parts.now told.now }
    ensures { result ≡ are_few parts.now }
{
    are_few_told(told)
}

// The same, by what each kind tells.
fn are_few_told(told: &QuotaItems) -> bool
    ensures { result ≡ (nat_le (length told.now.infos) most_groups && nat_le (length told.now.relations.items)
        (2 * most_relations)) }
{
    told.infos.len() <= MOST_GROUPS && told.relations.len() <= 2 * MOST_RELATIONS
}
