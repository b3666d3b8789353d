// Quota with what is looked up in it, as items and from items.
ghost use Rattle.std.specs.Prelude.{◌≡◌, [], map, None, Some, All, IfErr, IfOk, IsTrue, OnOk};
ghost use Rattle.std.specs.Bool.{then_some};
ghost use Rattle.std.specs.List.{filter_map, list_all};
ghost use Rattle.qg_node.specs.Fits.{ItemFits};
ghost use Rattle.qg_node.specs.Nodes.{is_ascending};
ghost use Rattle.qg_image.specs.ItemMeaning.{quota_part};
ghost use Rattle.qg_tree_items.specs.Keys.{quota_key};
ghost use Rattle.qg_image.specs.ImageState.{quota_told};
ghost use Rattle.qg_image.specs.Walk.{is_item_of};
ghost use Rattle.qg_image.specs.declared.tree.TreeKind.TheVariants.{Quotas};
ghost use Rattle.qg_qgroups.specs.Tracked.{HoldsAll, IsTracked};
ghost use Rattle.qg_quota.specs.Quota.{items_rule, quota_rule, IfRule};
ghost use Rattle.qg_quota.specs.Written.{items_of_quota, parts_of_quota, status_at};

use crate::fault::QuotaFault;
use crate::reading::read_live;
use crate::writing::items_of_quota;
use qg_image::QuotaPart;
use qg_items::QgroupStatus;
use qg_node::{Item, Items};
use qg_num::{Generation, NoMemory, RootId, Rule, Sequence};
use qg_qgroups::QuotaState;
use qg_tree_items::TreePart;
use std::alloc::{AllocError, Global};

/// The items of the quota tree of an image of this generation, ascending by key, as `quota_items` has them.
pub fn to_items(
    alloc: Global,
    state: &QuotaState,
    generation: Generation,
) -> Result<Items, NoMemory>
    requires { IsTracked state.now }
    ensures exact { IfOk result (λ items. items ≡ items_of_quota (status_at generation) state.now.quota) }
    ensures told { IfOk result (λ items. filter_map quota_part items ≡ parts_of_quota generation state.now.quota) }
    ensures ascending { IfOk result (λ items. IsTrue (is_ascending (map (λ item. item.key) items))) }
    ensures fit { IfOk result (λ items. All ItemFits items) }
{
    // A proof knows a number's range once it is read.
    let _generation = generation.value();
    let status = QgroupStatus {
        generation,
        flags: 1,
        cursor: 0,
    };
    Ok(items_of_quota(alloc, &status, &state.quota)?)
}

/// Quota of which nothing is held, as items of the quota tree of an image of this generation tell it, where these
/// subvolumes are live; or the first of the rules `item`, `quota` and `limits` that they break, unless memory is
/// refused.
pub fn from_items(
    alloc: Global,
    items: &Items,
    live: &[RootId],
    generation: Generation,
) -> Result<QuotaState, QuotaFault>
    requires { IsTrue (is_ascending (map (λ item. item.key) items.now)) }
    ensures sound { OnOk result (items_rule generation live.now items.now ≡ None) }
    ensures told { IfOk result (λ state. state.quota ≡ quota_told (filter_map quota_part items.now)) }
    ensures tracked { IfOk result IsTracked }
    ensures none { IfOk result (λ state. HoldsAll state []) }
    ensures refused { IfErr result
        (λ fault. IfRule fault (λ rule. items_rule generation live.now items.now ≡ Some rule)) }
{
    let seen = items.as_slice();
    let read = parts_in(alloc, seen, generation)?;
    match read {
        None => Err(QuotaFault::Rule(Rule::Item)),
        Some(parts) => state_of(alloc, live, parts.as_slice()),
    }
}

// Quota of which nothing is held, as these parts tell it, or the first of the rules `quota` and `limits` that they
// break.
fn state_of(alloc: Global, live: &[RootId], parts: &[QuotaPart]) -> Result<QuotaState, QuotaFault>
    requires { IsTrue (is_ascending (map quota_key parts.now)) }
    ensures sound { OnOk result (quota_rule live.now parts.now ≡ None) }
    ensures told { IfOk result (λ state. state.quota ≡ quota_told parts.now) }
    ensures tracked { IfOk result IsTracked }
    ensures none { IfOk result (λ state. HoldsAll state []) }
    ensures refused { IfErr result (λ fault. IfRule fault (λ rule. quota_rule live.now parts.now ≡ Some rule)) }
{
    let quota = read_live(alloc, live, parts)?;
    Ok(QuotaState::new(alloc, quota)?)
}

// What items say, where the quota tree of an image of this generation may hold each.
fn parts_in(
    alloc: Global,
    items: &[Item],
    generation: Generation,
) -> Result<Option<Sequence<QuotaPart>>, AllocError>
    ensures { IfOk result (λ parts. parts ≡ then_some (list_all (is_item_of Quotas generation) items.now)
        (filter_map quota_part items.now)) }
{
    let mut parts = Sequence::with_capacity(alloc, items.len())?;
    for item in items {
        match QuotaPart::read(item, generation) {
            None => return Ok(None),
            Some(part) => parts.push(part)?,
        }
    }
    Ok(Some(parts))
}
