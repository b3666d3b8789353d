// What structural commands change of what is kept, between their commits.
ghost use Rattle.std.specs.Prelude.{◌≡◌, ◌≢◌, ◌+◌, ◌++◌, ◌∷◌, [], All, IfNone, IfOk, IfSome, IsTrue, List, None};
ghost use Rattle.std.specs.Prelude.{OnOk, length, map};
ghost use Rattle.std.specs.List.{Contains};
ghost use Rattle.std.specs.Option.{option_map};
ghost use Rattle.std.specs.List.Sorted.{IsStrictlyIncreasing};
ghost use Rattle.qg_device.specs.Cause.{HasCause};
ghost use Rattle.qg_device.specs.History.{Event, Recorded};
ghost use Rattle.qg_num.specs.declared.answer.Answer.TheVariants.{Done, Sub};
ghost use Rattle.qg_num.specs.declared.command.Command.TheVariants.{Delete, Snap, SubCreate};
ghost use Rattle.qg_items.specs.declared.tree.TheConstants.{TOP_LEVEL as top_level};
ghost use Rattle.qg_image.specs.Table.{has_key, keys_of, with_value, without_key};
ghost use Rattle.qg_image.specs.State.{State};
ghost use Rattle.qg_image.specs.Members.{hierarchy_of, level_of_group};
ghost use Rattle.qg_machine.specs.GroupChange.{inherited, new_group, with_group};
ghost use Rattle.qg_machine.specs.Refusals.{nodes_reached};
ghost use Rattle.qg_blocks.specs.Stopping.{StopsForCause};
ghost use Rattle.qg_blocks.specs.NodesFound.{BreaksNone};
ghost use Rattle.qg_qgroups.specs.Faults.{create_fault};
ghost use Rattle.qg_qgroups.specs.Changing.{AreParents};
ghost use Rattle.qg_qgroups.specs.Tracked.{IsTracked, quota_of};
ghost use Rattle.qg_open_image.specs.Keeping.{IsKept, IsKeptOf, kept_at};
ghost use Rattle.qg_image_changes.specs.Changing.{CanSnap, HasRoom, IsChanged, SameHeldIn, number_next};
ghost use Rattle.qg_image_changes.specs.Changing.{too_many_refusal, without_tree};

use crate::numbering::place_of_snapshot;
use qg_disk::Disk;
use qg_items::tree::TOP_LEVEL;
use qg_num::{BlockFault, Generation, GroupId, NoMemory, RootId, Rule, Steps};
use qg_open_image::{KeptSubvolume, OpenImage, turn_to};
use qg_tree_read::Tree;
use std::sync::ledger::Ledger;

/// A subvolume without files is made. Nothing is written to the disk.
///
/// `Image` comes only where nothing is kept of a state: with the rule `Refs` where references are not what they should
/// be.
pub fn create_change<D: Disk, L: Ledger>(
    kept: &mut OpenImage,
    disk: &mut D,
    sub: RootId,
    reads: &mut Steps<L>,
) -> Result<(), BlockFault>
    requires kept { IsKept kept.old (D.history disk.old) (D.size disk.old) }
    requires number { sub ≡ number_next kept.old }
    requires few { too_many_refusal kept.old 0 ≡ None }
    requires room { HasRoom kept.old 18 }
    ensures kept { IfOk result (λ done. IsKept kept.new (D.history disk.new) (D.size disk.new)) }
    ensures changed { (state : State) → IsKeptOf kept.old state (D.history disk.old) → kept.old.pending ≡ 0
        → IfOk result (λ done. IsChanged state SubCreate (Sub sub) kept.new (D.history disk.new)) }
    ensures sound { (state : State) (events : List Event) → IsKeptOf kept.old state (D.history disk.old)
        → D.history disk.old ≡ Recorded events → BreaksNone result }
    ensures superblock { kept.new.superblock ≡ kept.old.superblock }
    ensures apart { (D.history disk.new ≡ D.history disk.old) × (D.size disk.new ≡ D.size disk.old) }
    ensures stops { StopsForCause result kept.old.fs.land.blocks.draft.sizes (D.size disk.old) }
    ensures cause { HasCause BlockFault.Disk (D.faults disk.old) (D.faults disk.new) result }
{
    let _ascending = kept.fs.refs.refs().len();
    let next = kept.fs.tree.next();
    let hand = kept.fs.tree.owner();
    if kept.fs.refs.next() != next {
        return Err(BlockFault::Image {
            rule: Rule::Refs,
            address: kept.fs.tree.root(),
        });
    }
    kept.fs.refs.stand_for(sub);
    let tree = qg_subvolumes::create(
        kept.alloc,
        &mut kept.fs.land,
        disk,
        sub,
        next,
        &mut kept.fs.refs,
        reads,
    )?;
    kept.fs.refs.stand_for(hand);
    let _ascending_still = kept.fs.refs.refs().len();
    add_subvolume(kept, tree, Generation::new(0))?;
    add_group(kept, sub, next)?;
    Ok(())
}

/// A subvolume begins as the one at hand is, whose last snapshot this is. Its group has the limits of the other's, and
/// is a member of the groups of a list. Else as [`create_change`].
pub fn snap_change<D: Disk, L: Ledger>(
    kept: &mut OpenImage,
    disk: &mut D,
    sub: RootId,
    copy: RootId,
    parents: &[GroupId],
    reads: &mut Steps<L>,
) -> Result<(), BlockFault>
    requires kept { IsKept kept.old (D.history disk.old) (D.size disk.old) }
    requires hand { kept.old.fs.tree.owner ≡ sub }
    requires number { copy ≡ number_next kept.old }
    requires listed { CanSnap kept.old parents.now }
    requires room { HasRoom kept.old (18 + length parents.now) }
    ensures kept { IfOk result (λ done. IsKept kept.new (D.history disk.new) (D.size disk.new)) }
    ensures changed { (state : State) → IsKeptOf kept.old state (D.history disk.old) → kept.old.pending ≡ 0
        → IfOk result (λ done. IsChanged state (Snap sub parents.now) (Sub copy) kept.new (D.history disk.new)) }
    ensures sound { (state : State) (events : List Event) → IsKeptOf kept.old state (D.history disk.old)
        → D.history disk.old ≡ Recorded events → BreaksNone result }
    ensures superblock { kept.new.superblock ≡ kept.old.superblock }
    ensures apart { (D.history disk.new ≡ D.history disk.old) × (D.size disk.new ≡ D.size disk.old) }
    ensures stops { StopsForCause result kept.old.fs.land.blocks.draft.sizes (D.size disk.old) }
    ensures cause { HasCause BlockFault.Disk (D.faults disk.old) (D.faults disk.new) result }
{
    let _ascending = kept.fs.refs.refs().len();
    let next = kept.fs.tree.next();
    kept.fs.refs.stand_for(copy);
    let tree = qg_subvolumes::snapshot(
        kept.alloc,
        &mut kept.fs.land,
        disk,
        &kept.fs.tree,
        copy,
        &mut kept.fs.refs,
        reads,
    )?;
    kept.fs.refs.stand_for(sub);
    let _ascending_still = kept.fs.refs.refs().len();
    mark_snapshot(kept, sub, next);
    add_subvolume(kept, tree, next)?;
    inherit_group(kept, sub, copy, parents, next)?;
    Ok(())
}

/// A subvolume other than the top-level one goes, with all that nobody else reaches. Else as [`create_change`].
pub fn delete_change<D: Disk, L: Ledger>(
    kept: &mut OpenImage,
    disk: &mut D,
    sub: RootId,
    copies: u64,
    reads: &mut Steps<L>,
) -> Result<(), BlockFault>
    requires kept { IsKept kept.old (D.history disk.old) (D.size disk.old) }
    requires there { IsTrue (has_key sub kept.old.snapshots) }
    requires other { sub ≡ top_level → ⊥ }
    requires room { HasRoom kept.old copies }
    ensures kept { IfOk result (λ done. IsKept kept.new (D.history disk.new) (D.size disk.new)) }
    ensures changed { (state : State) → IsKeptOf kept.old state (D.history disk.old) → kept.old.pending ≡ 0
        → copies ≡ 18 + nodes_reached state sub
        → IfOk result (λ done. IsChanged state (Delete sub) Done kept.new (D.history disk.new)) }
    ensures sound { (state : State) (events : List Event) → IsKeptOf kept.old state (D.history disk.old)
        → D.history disk.old ≡ Recorded events → BreaksNone result }
    ensures superblock { kept.new.superblock ≡ kept.old.superblock }
    ensures apart { (D.history disk.new ≡ D.history disk.old) × (D.size disk.new ≡ D.size disk.old) }
    ensures stops { StopsForCause result kept.old.fs.land.blocks.draft.sizes (D.size disk.old) }
    ensures cause { HasCause BlockFault.Disk (D.faults disk.old) (D.faults disk.new) result }
{
    turn_to(kept, RootId::new(TOP_LEVEL));
    let _ascending = kept.fs.refs.refs().len();
    let Some(tree) = take_tree(kept, sub) else {
        return Err(BlockFault::Image {
            rule: Rule::Refs,
            address: kept.fs.tree.root(),
        });
    };
    let hand = kept.fs.tree.owner();
    kept.fs.refs.stand_for(sub);
    qg_subvolumes::drop_all(
        kept.alloc,
        &mut kept.fs.land,
        disk,
        &tree,
        &mut kept.fs.refs,
        reads,
    )?;
    kept.fs.refs.stand_for(hand);
    let _ascending_still = kept.fs.refs.refs().len();
    forget_snapshot(kept, sub);
    Ok(())
}

// The generation of a subvolume's last snapshot is this one.
fn mark_snapshot(kept: &mut OpenImage, sub: RootId, generation: Generation)
    requires there { IsTrue (has_key sub kept.old.snapshots) }
    requires ascending { IsStrictlyIncreasing (keys_of kept.old.snapshots) }
    ensures { kept.new ≡ record kept.old { snapshots = with_value sub (kept_at generation) kept.old.snapshots } }
{
    if let Some(place) = place_of_snapshot(kept.snapshots.as_slice(), sub) {
        let marked = KeptSubvolume {
            last_snapshot: generation,
        };
        kept.snapshots.set(place, (sub, marked));
    }
}

// Of a subvolume that went nothing is known.
fn forget_snapshot(kept: &mut OpenImage, sub: RootId)
    requires ascending { IsStrictlyIncreasing (keys_of kept.old.snapshots) }
    ensures { kept.new ≡ record kept.old { snapshots = without_key sub kept.old.snapshots } }
{
    if let Some(place) = place_of_snapshot(kept.snapshots.as_slice(), sub) {
        kept.snapshots.remove(place);
    }
}

// A tree that was made goes behind the others, its number being the greatest; with it comes what is kept of it.
fn add_subvolume(
    kept: &mut OpenImage,
    tree: Tree,
    last_snapshot: Generation,
) -> Result<(), NoMemory>
    ensures trees { OnOk result (kept.new.fs.others.items ≡ kept.old.fs.others.items ++ tree ∷ []) }
    ensures snapshots { OnOk result (kept.new.snapshots
        ≡ kept.old.snapshots ++ (tree.owner, kept_at last_snapshot) ∷ []) }
    ensures rest { kept.new ≡ record kept.old {
      fs = record kept.old.fs { others = kept.new.fs.others };
      snapshots = kept.new.snapshots;
    } }
{
    let sub = tree.owner();
    kept.fs.others.push(tree)?;
    kept.snapshots.push((sub, KeptSubvolume { last_snapshot }))?;
    Ok(())
}

// The group of a subvolume that was made, while quota is on.
fn add_group(kept: &mut OpenImage, sub: RootId, stamp: Generation) -> Result<(), NoMemory>
    requires tracked { IfSome kept.old.quota IsTracked }
    requires free { IfSome kept.old.quota (λ quota. create_fault (hierarchy_of quota.quota) sub ≡ None) }
    ensures tracked { OnOk result (IfSome kept.new.quota IsTracked) }
    ensures quota { OnOk result (quota_of kept.new.quota
        ≡ option_map (with_group sub (new_group stamp)) (quota_of kept.old.quota)) }
    ensures held { OnOk result (SameHeldIn kept.old kept.new) }
    ensures rest { kept.new ≡ record kept.old { quota = kept.new.quota } }
{
    match &mut kept.quota {
        None => Ok(()),
        Some(quota) => {
            quota.add(sub, stamp)?;
            Ok(())
        }
    }
}

// The group of a snapshot, with the limits of its source's, a member of some groups, while quota is on.
fn inherit_group(
    kept: &mut OpenImage,
    source: RootId,
    copy: RootId,
    parents: &[GroupId],
    stamp: Generation,
) -> Result<(), NoMemory>
    requires tracked { IfSome kept.old.quota IsTracked }
    requires free { IfSome kept.old.quota (λ quota. create_fault (hierarchy_of quota.quota) copy ≡ None) }
    requires level { level_of_group copy ≡ 0 }
    requires parents { IfSome kept.old.quota (λ quota. AreParents quota.quota parents.now) }
    ensures tracked { OnOk result (IfSome kept.new.quota IsTracked) }
    ensures quota { OnOk result (quota_of kept.new.quota
        ≡ option_map (inherited stamp source copy parents.now) (quota_of kept.old.quota)) }
    ensures held { OnOk result (SameHeldIn kept.old kept.new) }
    ensures rest { kept.new ≡ record kept.old { quota = kept.new.quota } }
{
    match &mut kept.quota {
        None => Ok(()),
        Some(quota) => {
            quota.inherit(source, copy, parents, stamp)?;
            Ok(())
        }
    }
}

// The tree of a number is taken from among the others.
fn take_tree(kept: &mut OpenImage, sub: RootId) -> Option<Tree>
    requires ascending { IsStrictlyIncreasing (map (λ tree. tree.owner) kept.old.fs.others.items) }
    ensures taken { IfSome result (λ tree. (tree.owner ≡ sub) × Contains kept.old.fs.others.items tree) }
    ensures left { IfSome result (λ tree. kept.new.fs.others.items ≡ without_tree sub kept.old.fs.others.items) }
    ensures none { IfNone result (All (λ tree. tree.owner ≢ sub) kept.old.fs.others.items) }
    ensures rest { kept.new ≡ record kept.old { fs = record kept.old.fs { others = kept.new.fs.others } } }
{
    for i in 0..kept.fs.others.len() {
        if kept.fs.others[i].owner() == sub {
            return Some(kept.fs.others.remove(i));
        }
    }
    None
}
