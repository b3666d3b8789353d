// What the items of the quota tree say.
ghost use Rattle.std.specs.Prelude.{◌≡◌, ◌==◌, ◌&&◌, Some, length, nat_le};
ghost use Rattle.std.specs.Option.{option_map, option_and_then};
ghost use Rattle.std.specs.Bool.{then_some};
ghost use Rattle.qg_image.specs.ItemMeaning.{when, is_keyed, is_status, quota_part, quota_part_stamps};
ghost use Rattle.qg_image.specs.ItemReading.{status_read, info_read, limit_read};
ghost use Rattle.qg_image.specs.Types.{QGROUP_STATUS, QGROUP_INFO, QGROUP_LIMIT};
ghost use Rattle.qg_image.specs.declared.part.QuotaPart.TheVariants.{Status, Info, Limits, Relation};
ghost use Rattle.qg_image.specs.Walk.{are_by, tells_generation};

use crate::part::TreePart;
use qg_image::QuotaPart;
use qg_image::items::kind::{QGROUP_INFO, QGROUP_LIMIT, QGROUP_RELATION, QGROUP_STATUS};
use qg_image::items::tree::QUOTA_TREE;
use qg_image::items::{read_info, read_limit, read_status};
use qg_image::node::Item;
use qg_num::{Generation, GroupId, RootId};

// The flags of a limit: MAX_RFER 1, MAX_EXCL 2.
const LIMIT_FLAGS: u64 = 3;

impl TreePart for QuotaPart {
    ghost use Rattle.qg_image.specs.ItemMeaning.{quota_part};
    ghost use Rattle.qg_image.specs.declared.tree.TreeKind.TheVariants.{Quotas};
    ghost use Rattle.qg_tree_items.specs.PartsSaid.{quota_said};

    ghost tree = { Quotas };

    ghost meaning = { quota_part };

    fn is_owner(owner: RootId) -> bool {
        owner.value() == QUOTA_TREE
    }

    #[tactic(auto, unfolding(qg_image::specs::Walk::is_item_of))]
    fn read(item: &Item, generation: Generation) -> Option<QuotaPart> {
        quota_part(item).filter(|part| stamps_fit(part, generation))
    }

    ghost said = { quota_said };
}

fn quota_part(item: &Item) -> Option<QuotaPart>
    ensures { result ≡ quota_part item.now }
{
    match item.key.kind {
        QGROUP_STATUS => status_part(item),
        QGROUP_INFO => info_part(item),
        QGROUP_LIMIT => limits_part(item),
        QGROUP_RELATION => relation_part(item),
        _ => None,
    }
}

// The state of quota: it is on, and no rescan runs.
fn status_part(item: &Item) -> Option<QuotaPart>
    ensures { result ≡ when (is_keyed 0 QGROUP_STATUS 0 item.now)
        (option_and_then (λ status. then_some (is_status status) (Status status)) (status_read item.now.body)) }
{
    if item.key.objectid != 0 || item.key.kind != QGROUP_STATUS || item.key.offset != 0 {
        return None;
    }
    let status = read_status(item.body.as_slice())?;
    if status.flags != 1 || status.cursor != 0 {
        return None;
    }
    Some(QuotaPart::Status { status })
}

fn info_part(item: &Item) -> Option<QuotaPart>
    ensures { result ≡ when (is_keyed 0 QGROUP_INFO item.now.key.offset item.now)
        (option_map (Info item.now.key.offset) (info_read item.now.body)) }
{
    if item.key.objectid != 0 || item.key.kind != QGROUP_INFO {
        return None;
    }
    Some(QuotaPart::Info {
        group: GroupId::from_number(item.key.offset),
        info: read_info(item.body.as_slice())?,
    })
}

fn limits_part(item: &Item) -> Option<QuotaPart>
    ensures { result ≡ when (is_keyed 0 QGROUP_LIMIT item.now.key.offset item.now)
        (option_and_then (λ limit. then_some (nat_le limit.flags 3) (Limits item.now.key.offset limit))
        (limit_read item.now.body)) }
{
    if item.key.objectid != 0 || item.key.kind != QGROUP_LIMIT {
        return None;
    }
    let limit = read_limit(item.body.as_slice())?;
    if limit.flags > LIMIT_FLAGS {
        return None;
    }
    Some(QuotaPart::Limits {
        group: GroupId::from_number(item.key.offset),
        limit,
    })
}

fn relation_part(item: &Item) -> Option<QuotaPart>
    ensures { result ≡ when (length item.now.body == 0) (Some (Relation item.now.key.objectid item.now.key.offset)) }
{
    if !item.body.is_empty() {
        return None;
    }
    Some(QuotaPart::Relation {
        group: GroupId::from_number(item.key.objectid),
        other: GroupId::from_number(item.key.offset),
    })
}

// Whether no generation that it tells is past this one, and the state of quota tells this one.
fn stamps_fit(part: &QuotaPart, generation: Generation) -> bool
    ensures { result ≡ (are_by generation (quota_part_stamps part.now) && tells_generation generation part.now) }
{
    match part {
        QuotaPart::Status { status } => status.generation.value() == generation.value(),
        QuotaPart::Info { info, .. } => info.generation.value() <= generation.value(),
        QuotaPart::Limits { .. } | QuotaPart::Relation { .. } => true,
    }
}
