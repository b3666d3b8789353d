// The groups with their counters, as a commit is to store them.
ghost use Rattle.std.specs.Prelude.{◌≡◌, ℕ, All, List, Some, IfOk, length, map};
ghost use Rattle.std.specs.List.Sorted.{IsStrictlyIncreasing};
ghost use Rattle.qg_device.specs.Cause.{HasCause};
ghost use Rattle.qg_device.specs.History.{Event, History, Recorded};
ghost use Rattle.qg_image.specs.Table.{keys_of};
ghost use Rattle.qg_image.specs.declared.quota.Quota.{Quota};
ghost use Rattle.qg_image.specs.Members.{hierarchy_of, level_of_group};
ghost use Rattle.qg_image.specs.Record.{Record};
ghost use Rattle.qg_image.specs.State.{State, layout_of};
ghost use Rattle.qg_blocks.specs.Stopping.{StopsForCause};
ghost use Rattle.qg_blocks.specs.NodesFound.{BreaksNone};
ghost use Rattle.qg_qgroup_counts.specs.Direct.{AreGroupCounts};
ghost use Rattle.qg_qgroup_counts.specs.Surveyed.{surveyed_of};
ghost use Rattle.qg_survey.specs.Surveying.{trees_of};
ghost use Rattle.qg_qgroups.specs.Changing.{groups_in};
ghost use Rattle.qg_qgroups.specs.Tracked.{quota_of};
ghost use Rattle.qg_open_image.specs.FsLawsKeeping.{group_after, quota_after, quota_laid};
ghost use Rattle.qg_open_image.specs.FsLawsCommitting.{IsInOrder};
ghost use Rattle.qg_open_image.specs.Keeping.{IsFitted, IsKept, IsKeptWith};
ghost use Rattle.qg_image_commits.specs.Planning.{AreInOrder, HasSurveyed, counters_by, root_of_tree};

use crate::surveying::survey_all;
use qg_disk::Disk;
use qg_image::{Group, Quota};
use qg_num::{
    Address, BlockFault, Counters, Generation, GroupId, NoMemory, RootId, Sequence, Steps,
};
use qg_open_image::OpenImage;
use qg_open_image::other_trees::stamp_after;
use qg_qgroup_counts::{Surveyed, group_counts};
use qg_qgroups::QuotaState;
use qg_tree_read::Tree;
use std::alloc::{AllocError, Global};
use std::sync::ledger::Ledger;

/// The direct count of each group, in the order of the groups; none while quota is off, when nothing is read. The trees
/// are those of all subvolumes by number, and their nodes are read once each. Else as [`survey_all`].
pub(crate) fn counts_now<D: Disk, L: Ledger>(
    kept: &mut OpenImage,
    disk: &mut D,
    trees: &[Tree],
    reads: &mut Steps<L>,
) -> Result<Vec<Counters>, BlockFault>
    requires kept { IsKept kept.old (D.history disk.old) (D.size disk.old) }
    requires lowest { All (λ tree. level_of_group tree.owner ≡ 0) trees.now }
    ensures all { IfOk result (λ counts. length counts.items ≡ length (groups_in (quota_of kept.old.quota))) }
    ensures direct { (state : State) (names : List Record) (quota : Quota)
        → IsKeptWith kept.old state (D.history disk.old) names → trees.now ≡ trees_of state
        → quota_of kept.old.quota ≡ Some quota
        → IfOk result (λ counts. AreGroupCounts (layout_of state) (hierarchy_of quota) counts.items) }
    ensures sound { (state : State) (events : List Event) (names : List Record) → D.history disk.old ≡ Recorded events
        → IsKeptWith kept.old state (D.history disk.old) names → trees.now ≡ trees_of state → BreaksNone result }
    ensures order { IfOk result (λ counts. IsInOrder kept.new.fs.land.space) }
    ensures kept { IsKept kept.new (D.history disk.new) (D.size disk.new) }
    ensures looked { HasSurveyed kept.old kept.new (D.history disk.old) (D.history disk.new) (D.size disk.old)
        (D.size disk.new) }
    ensures stops { StopsForCause result kept.old.fs.land.blocks.draft.sizes (D.size disk.old) }
    ensures cause { HasCause BlockFault.Disk (D.faults disk.old) (D.faults disk.new) result }
{
    // A proof knows that slots and runs are in order once they were counted.
    let _slots = kept.fs.land.space.taken_slots();
    let _bytes = kept.fs.land.space.taken_bytes();
    if kept.quota.is_none() {
        return Ok(Vec::new(kept.alloc));
    }
    let nodes = survey_all(kept, disk, trees, reads)?;
    Ok(counts_of(kept, trees, nodes.as_slice())?)
}

// The direct count of each group, by what was surveyed of all nodes.
fn counts_of(
    kept: &OpenImage,
    trees: &[Tree],
    nodes: &[Surveyed],
) -> Result<Vec<Counters>, NoMemory>
    requires fitted { IsFitted kept.now }
    requires order { AreInOrder kept.now nodes.now }
    requires lowest { All (λ tree. level_of_group tree.owner ≡ 0) trees.now }
    ensures all { IfOk result (λ counts. length counts.items ≡ length (groups_in (quota_of kept.now.quota))) }
    ensures direct { (state : State) (history : History) (bytes : ℕ) (names : List Record) (quota : Quota)
        → IsKept kept.now history bytes → IsKeptWith kept.now state history names → trees.now ≡ trees_of state
        → nodes.now ≡ map (λ entry. surveyed_of entry.0 entry.1) state.layout → quota_of kept.now.quota ≡ Some quota
        → IfOk result (λ counts. AreGroupCounts (layout_of state) (hierarchy_of quota) counts.items) }
{
    // A proof knows that references, slots and runs are in order once they were counted.
    let _ascending = kept.fs.refs.refs().len();
    let _slots = kept.fs.land.space.taken_slots();
    let _bytes = kept.fs.land.space.taken_bytes();
    let Some(state) = &kept.quota else {
        return Ok(Vec::new(kept.alloc));
    };
    let roots = roots_of(kept.alloc, trees)?;
    let runs = kept.fs.land.space.run_list(kept.alloc)?;
    group_counts(
        kept.alloc,
        roots.as_slice(),
        nodes,
        kept.superblock.nodesize,
        runs.as_slice(),
        &state.hierarchy,
    )
}

/// The roots of trees, by the numbers of their subvolumes.
pub(crate) fn roots_of(
    alloc: Global,
    trees: &[Tree],
) -> Result<Sequence<(RootId, Address)>, AllocError>
    ensures { IfOk result (λ roots. roots ≡ map root_of_tree trees.now) }
{
    let mut roots = Sequence::new(alloc);
    for tree in trees {
        roots.push((tree.owner(), tree.root()))?;
    }
    Ok(roots)
}

/// Quota as a commit of the generation `next` stores it, by the direct counts of its groups, in their order: the stamp
/// of a group whose counters change is that generation. None while it is off.
pub(crate) fn quota_now(
    alloc: Global,
    quota: &Option<QuotaState>,
    counts: &[Counters],
    next: Generation,
) -> Result<Option<Quota>, NoMemory>
    requires ascending { IsStrictlyIncreasing (groups_in (quota_of quota.now)) }
    requires all { length counts.now ≡ length (groups_in (quota_of quota.now)) }
    ensures { IfOk result (λ now. now
        ≡ quota_laid next (counters_by (groups_in (quota_of quota.now)) counts.now) (quota_of quota.now)) }
{
    match quota {
        None => Ok(None),
        Some(state) => {
            let now = quota_by(alloc, &state.quota, counts, next)?;
            Ok(Some(now))
        }
    }
}

// The same of quota that is on.
fn quota_by(
    alloc: Global,
    quota: &Quota,
    counts: &[Counters],
    next: Generation,
) -> Result<Quota, NoMemory>
    requires ascending { IsStrictlyIncreasing (keys_of quota.now.groups) }
    requires all { length counts.now ≡ length quota.now.groups }
    ensures { IfOk result (λ now. now
        ≡ quota_after next (counters_by (keys_of quota.now.groups) counts.now) quota.now) }
{
    Ok(Quota {
        groups: groups_now(alloc, quota.groups.as_slice(), counts, next)?,
        pairs: Sequence::from_slice(alloc, quota.pairs.as_slice())?,
    })
}

// Each group with its counters, which stand in the order of the groups.
fn groups_now(
    alloc: Global,
    groups: &[(GroupId, Group)],
    counts: &[Counters],
    next: Generation,
) -> Result<Sequence<(GroupId, Group)>, AllocError>
    requires ascending { IsStrictlyIncreasing (keys_of groups.now) }
    requires all { length counts.now ≡ length groups.now }
    ensures { IfOk result (λ now. now ≡ map (group_after next (counters_by (keys_of groups.now) counts.now))
        groups.now) }
{
    let mut now = Sequence::new(alloc);
    for (i, entry) in groups.iter().enumerate() {
        now.push((entry.0, group_now(&entry.1, counts[i], next)))?;
    }
    Ok(now)
}

// A group with these counters: its stamp is the generation to come where they change.
fn group_now(group: &Group, counters: Counters, next: Generation) -> Group
    ensures { (number : ℕ) → (number, result) ≡ group_after next (λ any. counters) (number, group.now) }
{
    Group {
        counters,
        max_rfer: group.max_rfer,
        max_excl: group.max_excl,
        stamp: stamp_after(&group.counters, &counters, group.stamp, next),
    }
}
