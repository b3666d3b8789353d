// Quota, read from what its items say.
ghost use Rattle.std.specs.Prelude.{◌≡◌, ◌++◌, ◌∷◌, [], map, None, Some, IfErr, IfOk, IsTrue, OnOk};
ghost use Rattle.std.specs.List.{filter};
ghost use Rattle.qg_node.specs.Nodes.{is_ascending};
ghost use Rattle.qg_image.specs.Table.{keys_of};
ghost use Rattle.qg_tree_items.specs.Keys.{quota_key};
ghost use Rattle.qg_image.specs.Members.{hierarchy_of};
ghost use Rattle.qg_qgroups.specs.Groups.{IsSound};
ghost use Rattle.qg_image.specs.ImageState.{group_told, max_excl_told, max_rfer_told, quota_told};
ghost use Rattle.qg_quota.specs.QuotaKinds.{group_by, rises, Ascends};
ghost use Rattle.qg_quota.specs.Quota.{quota_rule, IfRule};

use crate::fault::QuotaFault;
use crate::rules::{are_few, is_quota, value_of};
use crate::told::{QuotaItems, told_by};
use qg_image::{Group, Quota, QuotaPart, RootPart};
use qg_items::{QgroupInfo, QgroupLimit};
use qg_num::{Counters, GroupId, RootId, Rule, Sequence};
use std::alloc::{AllocError, Global};

/// Quota, as its items tell it, or the first of the rules `quota` and `limits` that they break, unless memory is
/// refused.
pub fn read_quota(
    alloc: Global,
    subvolumes: &[RootPart],
    parts: &[QuotaPart],
) -> Result<Quota, QuotaFault>
    requires { IsTrue (is_ascending (map quota_key parts.now)) }
    ensures sound { OnOk result (quota_rule (keys_of subvolumes.now) parts.now ≡ None) }
    ensures hierarchy { IfOk result (λ quota. IsSound (hierarchy_of quota)) }
    ensures told { IfOk result (λ quota. quota ≡ quota_told parts.now) }
    ensures refused { IfErr result
        (λ fault. IfRule fault (λ rule. quota_rule (keys_of subvolumes.now) parts.now ≡ Some rule)) }
{
    let live = numbers_of(alloc, subvolumes)?;
    read_live(alloc, live.as_slice(), parts)
}

// The numbers of subvolumes.
fn numbers_of(alloc: Global, subvolumes: &[RootPart]) -> Result<Sequence<RootId>, AllocError>
    ensures { IfOk result (λ numbers. numbers ≡ keys_of subvolumes.now) }
{
    let mut numbers = Sequence::with_capacity(alloc, subvolumes.len())?;
    for part in subvolumes {
        numbers.push(part.0)?;
    }
    Ok(numbers)
}

/// The same, where these subvolumes are live.
pub(crate) fn read_live(
    alloc: Global,
    live: &[RootId],
    parts: &[QuotaPart],
) -> Result<Quota, QuotaFault>
    requires { IsTrue (is_ascending (map quota_key parts.now)) }
    ensures sound { OnOk result (quota_rule live.now parts.now ≡ None) }
    ensures hierarchy { IfOk result (λ quota. IsSound (hierarchy_of quota)) }
    ensures told { IfOk result (λ quota. quota ≡ quota_told parts.now) }
    ensures refused { IfErr result (λ fault. IfRule fault (λ rule. quota_rule live.now parts.now ≡ Some rule)) }
{
    let told = told_by(alloc, parts)?;
    let sound = is_quota(&told, live, parts);
    if !sound {
        return Err(QuotaFault::Rule(Rule::Quota));
    }
    if !are_few(&told, parts) {
        return Err(QuotaFault::Rule(Rule::Limits));
    }
    let groups = groups_of(alloc, &told)?;
    let relations = told.relations.as_slice();
    let pairs = pairs_of(alloc, relations)?;
    Ok(Quota { groups, pairs })
}

// The groups that counters tell, with their limits.
fn groups_of(alloc: Global, told: &QuotaItems) -> Result<Sequence<(GroupId, Group)>, AllocError>
    requires { Ascends told.now }
    ensures { IfOk result (λ groups. groups ≡ map (group_by told.now) told.now.infos) }
{
    let infos = told.infos.as_slice();
    let limits = told.limits.as_slice();
    let mut groups = Sequence::with_capacity(alloc, infos.len())?;
    for entry in infos {
        let limit = value_of(limits, entry.0);
        groups.push((entry.0, group_told(&entry.1, limit)))?;
    }
    Ok(groups)
}

// The group of these counters and limits.
fn group_told(info: &QgroupInfo, limit: Option<QgroupLimit>) -> Group
    ensures { result ≡ group_told info.now limit }
{
    let counters = Counters {
        rfer: info.rfer,
        excl: info.excl,
    };
    match limit {
        Some(limit) => Group {
            counters,
            max_rfer: max_rfer_told(&limit),
            max_excl: max_excl_told(&limit),
            stamp: info.generation,
        },
        None => Group {
            counters,
            max_rfer: None,
            max_excl: None,
            stamp: info.generation,
        },
    }
}

// The limit on referenced bytes, where it is set.
fn max_rfer_told(limit: &QgroupLimit) -> Option<u64>
    ensures { result ≡ max_rfer_told limit.now }
{
    (limit.flags % 2 == 1).then_some(limit.max_rfer)
}

// The limit on exclusive bytes, where it is set.
fn max_excl_told(limit: &QgroupLimit) -> Option<u64>
    ensures { result ≡ max_excl_told limit.now }
{
    (limit.flags / 2 % 2 == 1).then_some(limit.max_excl)
}

// The relations whose member comes first.
fn pairs_of(
    alloc: Global,
    relations: &[(u64, u64)],
) -> Result<Sequence<(GroupId, GroupId)>, AllocError>
    ensures { IfOk result (λ pairs. pairs ≡ filter rises relations.now) }
{
    let mut pairs = Sequence::new(alloc);
    for pair in relations {
        put_rising(pair, &mut pairs)?;
    }
    Ok(pairs)
}

// Puts a relation at the end, where the first of its groups is the member.
fn put_rising(pair: &(u64, u64), pairs: &mut Sequence<(GroupId, GroupId)>) -> Result<(), AllocError>
    ensures { OnOk result (pairs.new ≡ pairs.old ++ filter rises (pair.now ∷ [])) }
{
    let member = GroupId::from_number(pair.0);
    let parent = GroupId::from_number(pair.1);
    if member.level() < parent.level() {
        pairs.push((member, parent))?;
    }
    Ok(())
}
