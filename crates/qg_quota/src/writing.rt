// The items of the quota tree.
ghost use Rattle.std.specs.Prelude.{◌≡◌, ◌≤◌, ◌+◌, ◌*◌, ◌++◌, All, IfOk, OnOk, IsTrue, length, map};
ghost use Rattle.std.specs.List.{filter_map, list_all};
ghost use Rattle.qg_node.specs.Fits.{ItemFits};
ghost use Rattle.qg_node.specs.Nodes.{is_ascending, items_bytes};
ghost use Rattle.qg_image.specs.ItemMeaning.{quota_part};
ghost use Rattle.qg_image.specs.Walk.{is_item_of};
ghost use Rattle.qg_image.specs.declared.tree.TreeKind.TheVariants.{Quotas};
ghost use Rattle.qg_quota.specs.Writable.{AreWritableQuota, GroupFits, PairFits};
ghost use Rattle.qg_quota.specs.Written.{
  both_ways,
  item_of_relation,
  items_of_groups,
  items_of_quota,
  parts_of_quota,
  status_at,
};

use crate::item::{info_item, limit_item, relation_item, status_item};
use crate::pairs::both_ways;
use qg_image::{Group, Quota};
use qg_items::QgroupStatus;
use qg_node::Items;
use qg_num::{Generation, GroupId, NoMemory};
use std::alloc::{AllocError, Global};
use std::collections::BTreeSet;

/// The items of the quota tree of an image of this generation, ascending by key: a QGROUP_STATUS, a QGROUP_INFO for
/// each group with its counters, in bytes, a QGROUP_LIMIT for each group, and two QGROUP_RELATIONs for each relation
/// (on-disk format, QGROUP_STATUS to QGROUP_RELATION).
pub fn quota_items(alloc: Global, generation: Generation, quota: &Quota) -> Result<Items, NoMemory>
    requires { AreWritableQuota generation quota.now }
    ensures exact { IfOk result (λ items. items ≡ items_of_quota (status_at generation) quota.now) }
    ensures told { IfOk result (λ items. filter_map quota_part items ≡ parts_of_quota generation quota.now) }
    ensures allowed { IfOk result (λ items. IsTrue (list_all (is_item_of Quotas generation) items)) }
    ensures ascending { IfOk result (λ items. IsTrue (is_ascending (map (λ item. item.key) items))) }
    ensures short { IfOk result (λ items. All (λ item. length item.body ≤ 1024) items) }
    ensures fit { IfOk result (λ items. All ItemFits items) }
    ensures weight { IfOk result (λ items. items_bytes items ≡ 57 + 130 * length quota.now.groups
        + 50 * length quota.now.pairs) }
{
    // A proof knows a number's range once it is read.
    let _generation = generation.value();
    let status = QgroupStatus {
        generation,
        flags: 1,
        cursor: 0,
    };
    Ok(items_of_quota(alloc, &status, quota)?)
}

/// The items of quota, behind that of its state.
pub(crate) fn items_of_quota(
    alloc: Global,
    status: &QgroupStatus,
    quota: &Quota,
) -> Result<Items, AllocError>
    ensures exact { IfOk result (λ items. items ≡ items_of_quota status.now quota.now) }
    ensures groups { OnOk result (All GroupFits quota.now.groups) }
    ensures pairs { OnOk result (All PairFits (both_ways quota.now.pairs)) }
{
    let mut items = items_of_groups(alloc, status, quota.groups.as_slice())?;
    let related = both_ways(alloc, quota.pairs.as_slice())?;
    put_relations(alloc, &related, &mut items)?;
    Ok(items)
}

// The items of groups, behind that of the state of quota.
fn items_of_groups(
    alloc: Global,
    status: &QgroupStatus,
    groups: &[(GroupId, Group)],
) -> Result<Items, AllocError>
    ensures exact { IfOk result (λ items. items ≡ items_of_groups status.now groups.now) }
    ensures fits { OnOk result (All GroupFits groups.now) }
{
    let mut items = Items::new(alloc);
    items.push(status_item(alloc, status)?)?;
    for entry in groups {
        items.push(info_item(alloc, entry)?)?;
    }
    for limited in groups {
        items.push(limit_item(alloc, limited)?)?;
    }
    Ok(items)
}

// Puts the items of relations at the end.
fn put_relations(
    alloc: Global,
    related: &BTreeSet<(u64, u64)>,
    items: &mut Items,
) -> Result<(), AllocError>
    ensures { OnOk result (items.new ≡ items.old ++ map item_of_relation related.now.keys) }
{
    for pair in related {
        items.push(relation_item(alloc, pair.0, pair.1)?)?;
    }
    Ok(())
}
