// The rules on where extents lie and on what groups count.
ghost use Rattle.std.specs.Prelude.{◌≡◌, ◌+◌, ◌*◌, ◌^◌, ◌<◌, ◌∷◌, [], map, length, All, Some, IfSome, IsErrOf, IsTrue};
ghost use Rattle.std.specs.List.Sorted.{IsStrictlyIncreasing};
ghost use Rattle.qg_num.specs.declared.counters.Which.TheVariants.{Rfer, Excl};
ghost use Rattle.qg_super.specs.Places.{is_served};
ghost use Rattle.qg_image.specs.Table.{keys_of};
ghost use Rattle.qg_image.specs.State.{Layout};
ghost use Rattle.qg_image.specs.declared.quota.Quota.{Quota};
ghost use Rattle.qg_image.specs.Members.{hierarchy_of, level_of_group};
ghost use Rattle.qg_image.specs.Counts.{bytes_of};
ghost use Rattle.qg_image.specs.Failure.{first_failure};
ghost use Rattle.qg_image.specs.Verdict.{counted, counts_failure, group_failure, space_failure};
ghost use Rattle.qg_walk.specs.Fault.{FailsAs};
ghost use Rattle.qg_qgroup_counts.specs.Direct.{AreGroupCounts};
ghost use Rattle.qg_qgroup_counts.specs.Surveyed.{AreSurveyed};
ghost use Rattle.qg_qgroups.specs.Tracked.{quota_of, IsTracked};

use qg_image::{Element, Failure, Group};
use qg_num::{Address, Counters, GroupId, RootId, Which};
use qg_qgroup_counts::{Surveyed, group_counts};
use qg_qgroups::QuotaState;
use qg_reach::space_failure;
use qg_super::Sizes;
use qg_walk::OpenFault;
use std::alloc::Global;

/// Judges where data extents lie.
pub(crate) fn judge_extents(sizes: &Sizes, extents: &[Element]) -> Result<(), OpenFault>
    requires served { IsTrue (is_served sizes.now) }
    ensures failure { FailsAs result (space_failure sizes.now extents.now) }
    ensures no_disk { IsErrOf result OpenFault.Disk → ⊥ }
{
    match space_failure(sizes, extents) {
        None => Ok(()),
        Some(failure) => Err(OpenFault::from(failure)),
    }
}

/// Judges the stored counters of groups; while quota is off there are none. `roots` are where the roots of all
/// subvolumes lie, by their numbers, `nodes` what was surveyed of all nodes, ascending by address, and `extents` those
/// that leaves name.
pub(crate) fn judge_counts(
    alloc: Global,
    roots: &[(RootId, Address)],
    nodes: &[Surveyed],
    nodesize: u32,
    extents: &[Element],
    quota: &Option<QuotaState>,
) -> Result<(), OpenFault>
    requires lowest { All (λ root. level_of_group root.0 ≡ 0) roots.now }
    requires nodes { IsStrictlyIncreasing (map (λ node. node.linked.address) nodes.now) }
    requires small { nodesize * length nodes.now + bytes_of extents.now < 2 ^ 64 }
    requires tracked { IfSome quota.now IsTracked }
    ensures failure { (layout : Layout) → AreSurveyed layout roots.now nodes.now nodesize extents.now
        → FailsAs result (counts_failure layout (quota_of quota.now)) }
    ensures no_disk { IsErrOf result OpenFault.Disk → ⊥ }
{
    match quota {
        Some(state) => judge_state(alloc, roots, nodes, nodesize, extents, state),
        None => Ok(()),
    }
}

// The same while quota is on.
fn judge_state(
    alloc: Global,
    roots: &[(RootId, Address)],
    nodes: &[Surveyed],
    nodesize: u32,
    extents: &[Element],
    state: &QuotaState,
) -> Result<(), OpenFault>
    requires lowest { All (λ root. level_of_group root.0 ≡ 0) roots.now }
    requires nodes { IsStrictlyIncreasing (map (λ node. node.linked.address) nodes.now) }
    requires small { nodesize * length nodes.now + bytes_of extents.now < 2 ^ 64 }
    requires tracked { IsTracked state.now }
    ensures failure { (layout : Layout) → AreSurveyed layout roots.now nodes.now nodesize extents.now
        → FailsAs result (counts_failure layout (Some state.now.quota)) }
    ensures no_disk { IsErrOf result OpenFault.Disk → ⊥ }
{
    let counters = group_counts(alloc, roots, nodes, nodesize, extents, &state.hierarchy)?;
    judge_groups(state.quota.groups.as_slice(), counters.as_slice())
}

// Judges the stored counters of groups, each by the counters at its index.
fn judge_groups(groups: &[(GroupId, Group)], counters: &[Counters]) -> Result<(), OpenFault>
    requires { length counters.now ≡ length groups.now }
    ensures failure { (layout : Layout) (quota : Quota) → keys_of quota.groups ≡ keys_of groups.now
        → AreGroupCounts layout (hierarchy_of quota) counters.now
        → FailsAs result (first_failure (map (group_failure layout quota) groups.now)) }
    ensures no_disk { IsErrOf result OpenFault.Disk → ⊥ }
{
    for (i, entry) in groups.iter().enumerate() {
        let direct = counters[i];
        if let Some(failure) = own_failure(entry.0, &entry.1.counters, &direct) {
            return Err(OpenFault::from(failure));
        }
    }
    Ok(())
}

// The first of a group's stored counters that is not the direct count.
fn own_failure(group: GroupId, stored: &Counters, direct: &Counters) -> Option<Failure>
    ensures { result ≡ first_failure (counted group Rfer stored.now.rfer direct.now.rfer
        ∷ counted group Excl stored.now.excl direct.now.excl ∷ []) }
{
    if stored.rfer != direct.rfer {
        return Some(Failure::Differs {
            group,
            which: Which::Rfer,
            stored: stored.rfer,
            counted: direct.rfer,
        });
    }
    if stored.excl != direct.excl {
        return Some(Failure::Differs {
            group,
            which: Which::Excl,
            stored: stored.excl,
            counted: direct.excl,
        });
    }
    None
}
