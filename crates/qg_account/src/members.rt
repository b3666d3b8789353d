// Which groups a subvolume is a member of, by what lies above its own.
ghost use Rattle.std.specs.Prelude.{◌≡◌, true, IfOk};
ghost use Rattle.qg_image.specs.Members.{is_member};
ghost use Rattle.qg_qgroups.specs.Groups.{has_number, is_kept, IsSound};
ghost use Rattle.qg_account.specs.Standing.{groups_with};

use qg_num::{GroupId, GroupList, NoMemory, RootId};
use qg_qgroups::{HierFault, Hierarchy};
use std::alloc::Global;

/// The groups that a subvolume is a member of: its own and all above it (btrfs-qgroup(8), "hierarchical quota groups").
/// Without a group of its own it is a member of none.
pub(crate) fn groups_with(
    alloc: Global,
    hierarchy: &Hierarchy,
    sub: RootId,
) -> Result<GroupList, NoMemory>
    ensures { IfOk result (λ groups. groups ≡ groups_with hierarchy.now sub) }
{
    let own = GroupId::from_number(sub.value());
    if own.level() != 0 {
        return Ok(GroupList::new(alloc));
    }
    match hierarchy.above(own) {
        Ok(above) => Ok(above),
        Err(HierFault::NoGroup) => Ok(GroupList::new(alloc)),
        Err(_) => Err(NoMemory),
    }
}

/// Whether a subvolume is a member of a kept group. A group of level 0 has its own subvolume alone as a member.
pub(crate) fn is_member(
    alloc: Global,
    hierarchy: &Hierarchy,
    group: GroupId,
    sub: RootId,
) -> Result<bool, NoMemory>
    requires sound { IsSound hierarchy.now }
    requires kept { is_kept hierarchy.now group ≡ true }
    ensures { IfOk result (λ is. is ≡ is_member hierarchy.now group sub) }
{
    if group.level() == 0 {
        return Ok(sub.value() == group.number());
    }
    let groups = groups_with(alloc, hierarchy, sub)?;
    Ok(has_group(groups.as_slice(), group))
}

// Whether a group is one of some.
fn has_group(groups: &[GroupId], group: GroupId) -> bool
    ensures { result ≡ has_number group groups.now }
{
    for one in groups {
        if one.number() == group.number() {
            return true;
        }
    }
    false
}
