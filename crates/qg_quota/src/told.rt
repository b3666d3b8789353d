// What quota items tell, each kind by itself.
ghost use Rattle.std.specs.Prelude.{◌≡◌, ◌++◌, ◌∷◌, [], IfOk, OnOk};
ghost use Rattle.std.specs.List.{filter_map};
ghost use Rattle.qg_image.specs.ImageState.{info_told, limit_told};
ghost use Rattle.qg_quota.specs.QuotaKinds.{relation_told, AreTold};

use qg_image::QuotaPart;
use qg_items::{QgroupInfo, QgroupLimit};
use qg_num::{GroupId, Sequence};
use std::alloc::{AllocError, Global};

/// What quota items tell, each kind in the items' order.
#[derive(Drop)]
pub(crate) struct QuotaItems {
    /// Groups with their counters.
    pub(crate) infos: Sequence<(GroupId, QgroupInfo)>,
    /// Groups with their limits.
    pub(crate) limits: Sequence<(GroupId, QgroupLimit)>,
    /// Ends of relations, by the numbers of the two groups.
    pub(crate) relations: Vec<(u64, u64)>,
}

/// What these items tell.
pub(crate) fn told_by(alloc: Global, parts: &[QuotaPart]) -> Result<QuotaItems, AllocError>
    ensures { IfOk result (AreTold parts.now) }
{
    let mut told = QuotaItems {
        infos: Sequence::new(alloc),
        limits: Sequence::new(alloc),
        relations: Vec::new(alloc),
    };
    for part in parts {
        put_part(part, &mut told)?;
    }
    Ok(told)
}

// Puts what one item more tells at the end.
fn put_part(part: &QuotaPart, told: &mut QuotaItems) -> Result<(), AllocError>
    ensures infos { OnOk result (told.new.infos ≡ told.old.infos ++ filter_map info_told (part.now ∷ [])) }
    ensures limits { OnOk result (told.new.limits ≡ told.old.limits ++ filter_map limit_told (part.now ∷ [])) }
    ensures relations { OnOk result (told.new.relations.items ≡ told.old.relations.items ++ filter_map relation_told
        (part.now ∷ [])) }
{
    match part {
        QuotaPart::Status { .. } => {}
        QuotaPart::Info { group, info } => told.infos.push((*group, *info))?,
        QuotaPart::Limits { group, limit } => told.limits.push((*group, *limit))?,
        QuotaPart::Relation { group, other } => {
            told.relations.push((group.number(), other.number()))?
        }
    }
    Ok(())
}
