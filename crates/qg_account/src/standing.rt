// How the owners of something stand to the members of a group.
ghost use Rattle.std.specs.Prelude.{◌≡◌, true, IfOk};
ghost use Rattle.qg_image.specs.Members.{is_member};
ghost use Rattle.qg_qgroups.specs.Groups.{is_kept, IsSound};
ghost use Rattle.qg_account.specs.Standing.{has_others, meets, standing_of};

use crate::members::is_member;
use qg_num::{GroupId, NoMemory, RootId};
use qg_qgroups::Hierarchy;
use std::alloc::Global;

/// Whether some owner is a member of a group, and whether there are owners and each of them is one.
#[derive(Clone, Copy)]
pub(crate) struct Standing {
    pub(crate) meets: bool,
    pub(crate) within: bool,
}

/// How owners stand to the members of a kept group. Neither question goes past the first owner that answers it.
pub(crate) fn standing_of(
    alloc: Global,
    hierarchy: &Hierarchy,
    group: GroupId,
    owners: &[RootId],
) -> Result<Standing, NoMemory>
    requires sound { IsSound hierarchy.now }
    requires kept { is_kept hierarchy.now group ≡ true }
    ensures { IfOk result (λ told. told ≡ standing_of (is_member hierarchy.now group) owners.now) }
{
    if !meets(alloc, hierarchy, group, owners)? {
        return Ok(Standing {
            meets: false,
            within: false,
        });
    }
    let others = has_others(alloc, hierarchy, group, owners)?;
    Ok(Standing {
        meets: true,
        within: !others,
    })
}

// Whether some owner is a member.
fn meets(
    alloc: Global,
    hierarchy: &Hierarchy,
    group: GroupId,
    owners: &[RootId],
) -> Result<bool, NoMemory>
    requires sound { IsSound hierarchy.now }
    requires kept { is_kept hierarchy.now group ≡ true }
    ensures { IfOk result (λ met. met ≡ meets (is_member hierarchy.now group) owners.now) }
{
    for sub in owners {
        if is_member(alloc, hierarchy, group, *sub)? {
            return Ok(true);
        }
    }
    Ok(false)
}

// Whether some owner is none.
fn has_others(
    alloc: Global,
    hierarchy: &Hierarchy,
    group: GroupId,
    owners: &[RootId],
) -> Result<bool, NoMemory>
    requires sound { IsSound hierarchy.now }
    requires kept { is_kept hierarchy.now group ≡ true }
    ensures { IfOk result (λ others. others ≡ has_others (is_member hierarchy.now group) owners.now) }
{
    for sub in owners {
        if !is_member(alloc, hierarchy, group, *sub)? {
            return Ok(true);
        }
    }
    Ok(false)
}
