// Subvolumes that come and go.
ghost use Rattle.std.specs.Prelude.{◌≡◌, ◌+◌, ◌^◌, ◌≤◌, ℕ, IfErr, IfNone, IfOk, IsTrue, List, OnOk, length};
ghost use Rattle.qg_device.specs.Cause.{HasCause};
ghost use Rattle.qg_device.specs.History.{Event, Recorded};
ghost use Rattle.qg_node.specs.NodeText.{IsNodeSize};
ghost use Rattle.qg_num.specs.declared.command.Command.TheVariants.{Delete, Snap, SubCreate};
ghost use Rattle.qg_super.specs.SuperText.{sizes_of};
ghost use Rattle.qg_image.specs.State.{State};
ghost use Rattle.qg_machine.specs.Refusals.{nodes_reached};
ghost use Rattle.qg_blocks.specs.Stopping.{StopsForCause};
ghost use Rattle.qg_blocks.specs.NodesFound.{BreaksNone, IfBroken};
ghost use Rattle.qg_extents.specs.Table.{IsTable};
ghost use Rattle.qg_space.specs.Holding.{free_slots};
ghost use Rattle.qg_image_commits.specs.Answering.{AnswersOn, IsDoneSoFar, is_unchanging};
ghost use Rattle.qg_image_commits.specs.Editing.{HasLooked, HasReadNodes};
ghost use Rattle.qg_image_commits.specs.Keeping.{IsKept, IsKeptOf, structural_need_of};
ghost use Rattle.qg_image_commits.specs.Stored.{IsIntact, KnowsLast, StaysLast, StopsPending};
ghost use Rattle.qg_store.specs.Structural.{CallsPending, HasCommitted, IsDoneFirst, IsSettledFrom, commit_refusal};
ghost use Rattle.qg_image_changes.specs.Changing.{HasRoom};

use qg_disk::Disk;
use qg_image_changes::{are_too_many, create_change, delete_change, number_next, snap_change};
use qg_image_commits::open_image::{OpenImage, structural_need, turn_to};
use qg_image_commits::{LAST_GENERATION, commit_now};
use qg_items::tree::TOP_LEVEL;
use qg_num::{Answer, BlockFault, GroupId, NoMemory, Refusal, RootId, Steps};
use qg_qgroups::refusal_of_parents;
use std::sync::ledger::Ledger;

/// The nodes that a structural command may copy besides those that it goes through.
pub(crate) const COPIES: u64 = 18;

/// The most nodes that memory can tell of.
const MOST_NODES: u64 = 1 << 48;

/// Makes a subvolume without files, or refuses to. What is pending is committed first, and the subvolume then.
pub(crate) fn create<D: Disk, L: Ledger>(
    kept: &mut OpenImage,
    disk: &mut D,
    reads: &mut Steps<L>,
) -> Result<Answer, BlockFault>
    requires kept { IsKept kept.old (D.history disk.old) (D.size disk.old) }
    ensures kept { IfOk result (λ answer. IsKept kept.new (D.history disk.new) (D.size disk.new)) }
    ensures step { (state : State) (events : List Event) → IsKeptOf kept.old state (D.history disk.old)
        → D.history disk.old ≡ Recorded events
        → IfOk result (λ answer. AnswersOn state SubCreate answer kept.new events (D.history disk.new)) }
    ensures so_far { (state : State) (events : List Event) → IsKeptOf kept.old state (D.history disk.old)
        → D.history disk.old ≡ Recorded events
        → IsDoneSoFar state SubCreate events (D.history disk.new) }
    ensures sound { (state : State) (events : List Event) → D.history disk.old ≡ Recorded events
        → IsKeptOf kept.old state (D.history disk.old) → BreaksNone result }
    ensures refused { IfOk result (λ answer. IsTrue (is_unchanging answer) → HasLooked kept.old kept.new
        (D.history disk.old) (D.history disk.new) (D.size disk.old) (D.size disk.new)) }
    ensures err { IfErr result
        (λ fault. KnowsLast SubCreate kept.old kept.new (D.history disk.old) (D.history disk.new)) }
    ensures intact { IfBroken result
        (IsIntact SubCreate kept.old kept.new (D.history disk.old) (D.history disk.new)) }
    ensures sizes { (sizes_of kept.new.superblock ≡ sizes_of kept.old.superblock)
        × (D.size disk.old ≤ D.size disk.new) }
    ensures stops { StopsForCause result (sizes_of kept.old.superblock) (D.size disk.old) }
    ensures cause { HasCause BlockFault.Disk (D.faults disk.old) (D.faults disk.new) result }
{
    let number = number_next(kept);
    if are_too_many(kept, number, 0) {
        return Ok(Answer::Refused(Refusal::TooMany));
    }
    if let Some(why) = no_commit(kept, COPIES)? {
        return Ok(Answer::Refused(why));
    }
    let sub = RootId::new(number);
    commit_pending(kept, disk, reads)?;
    create_change(kept, disk, sub, reads)?;
    commit_now(kept, disk, reads)?;
    Ok(Answer::Sub(sub))
}

/// Makes a subvolume that begins as another one is, its group a member of the groups of a list, or refuses to. Else as
/// [`create`].
pub(crate) fn snap<D: Disk, L: Ledger>(
    kept: &mut OpenImage,
    disk: &mut D,
    sub: RootId,
    parents: &[GroupId],
    reads: &mut Steps<L>,
) -> Result<Answer, BlockFault>
    requires kept { IsKept kept.old (D.history disk.old) (D.size disk.old) }
    ensures kept { IfOk result (λ answer. IsKept kept.new (D.history disk.new) (D.size disk.new)) }
    ensures step { (state : State) (events : List Event) → IsKeptOf kept.old state (D.history disk.old)
        → D.history disk.old ≡ Recorded events
        → IfOk result (λ answer. AnswersOn state (Snap sub parents.now) answer kept.new events (D.history disk.new)) }
    ensures so_far { (state : State) (events : List Event) → IsKeptOf kept.old state (D.history disk.old)
        → D.history disk.old ≡ Recorded events
        → IsDoneSoFar state (Snap sub parents.now) events (D.history disk.new) }
    ensures sound { (state : State) (events : List Event) → D.history disk.old ≡ Recorded events
        → IsKeptOf kept.old state (D.history disk.old) → BreaksNone result }
    ensures refused { IfOk result (λ answer. IsTrue (is_unchanging answer) → HasLooked kept.old kept.new
        (D.history disk.old) (D.history disk.new) (D.size disk.old) (D.size disk.new)) }
    ensures err { IfErr result
        (λ fault. KnowsLast (Snap sub parents.now) kept.old kept.new (D.history disk.old) (D.history disk.new)) }
    ensures intact { IfBroken result
        (IsIntact (Snap sub parents.now) kept.old kept.new (D.history disk.old) (D.history disk.new)) }
    ensures sizes { (sizes_of kept.new.superblock ≡ sizes_of kept.old.superblock)
        × (D.size disk.old ≤ D.size disk.new) }
    ensures stops { StopsForCause result (sizes_of kept.old.superblock) (D.size disk.old) }
    ensures cause { HasCause BlockFault.Disk (D.faults disk.old) (D.faults disk.new) result }
{
    if !turn_to(kept, sub) {
        return Ok(Answer::Refused(Refusal::NoSub));
    }
    if let Some(why) = refusal_of_parents(kept.alloc, &kept.quota, parents)? {
        return Ok(Answer::Refused(why));
    }
    let number = number_next(kept);
    if are_too_many(kept, number, parents.len()) {
        return Ok(Answer::Refused(Refusal::TooMany));
    }
    let copies = copies_with(parents)?;
    if let Some(why) = no_commit(kept, copies)? {
        return Ok(Answer::Refused(why));
    }
    let copy = RootId::new(number);
    commit_pending(kept, disk, reads)?;
    snap_change(kept, disk, sub, copy, parents, reads)?;
    commit_now(kept, disk, reads)?;
    Ok(Answer::Sub(copy))
}

/// Deletes a subvolume, or refuses to. Else as [`create`].
pub(crate) fn delete<D: Disk, L: Ledger>(
    kept: &mut OpenImage,
    disk: &mut D,
    sub: RootId,
    reads: &mut Steps<L>,
) -> Result<Answer, BlockFault>
    requires kept { IsKept kept.old (D.history disk.old) (D.size disk.old) }
    ensures kept { IfOk result (λ answer. IsKept kept.new (D.history disk.new) (D.size disk.new)) }
    ensures step { (state : State) (events : List Event) → IsKeptOf kept.old state (D.history disk.old)
        → D.history disk.old ≡ Recorded events
        → IfOk result (λ answer. AnswersOn state (Delete sub) answer kept.new events (D.history disk.new)) }
    ensures so_far { (state : State) (events : List Event) → IsKeptOf kept.old state (D.history disk.old)
        → D.history disk.old ≡ Recorded events
        → IsDoneSoFar state (Delete sub) events (D.history disk.new) }
    ensures sound { (state : State) (events : List Event) → D.history disk.old ≡ Recorded events
        → IsKeptOf kept.old state (D.history disk.old) → BreaksNone result }
    ensures refused { IfOk result (λ answer. IsTrue (is_unchanging answer) → HasLooked kept.old kept.new
        (D.history disk.old) (D.history disk.new) (D.size disk.old) (D.size disk.new)) }
    ensures err { IfErr result
        (λ fault. KnowsLast (Delete sub) kept.old kept.new (D.history disk.old) (D.history disk.new)) }
    ensures intact { IfBroken result
        (IsIntact (Delete sub) kept.old kept.new (D.history disk.old) (D.history disk.new)) }
    ensures sizes { (sizes_of kept.new.superblock ≡ sizes_of kept.old.superblock)
        × (D.size disk.old ≤ D.size disk.new) }
    ensures stops { StopsForCause result (sizes_of kept.old.superblock) (D.size disk.old) }
    ensures cause { HasCause BlockFault.Disk (D.faults disk.old) (D.faults disk.new) result }
{
    if sub.value() == TOP_LEVEL {
        return Ok(Answer::Refused(Refusal::TopLevel));
    }
    if !turn_to(kept, sub) {
        return Ok(Answer::Refused(Refusal::NoSub));
    }
    let copies = copies_of_tree(kept, disk, reads)?;
    if let Some(why) = no_commit(kept, copies)? {
        return Ok(Answer::Refused(why));
    }
    commit_pending(kept, disk, reads)?;
    delete_change(kept, disk, sub, copies, reads)?;
    commit_now(kept, disk, reads)?;
    Ok(Answer::Done)
}

// The nodes that may be copied where the tree at hand goes. More than 2^48 are told in no memory.
fn copies_of_tree<D: Disk, L: Ledger>(
    kept: &mut OpenImage,
    disk: &mut D,
    reads: &mut Steps<L>,
) -> Result<u64, BlockFault>
    requires kept { IsKept kept.old (D.history disk.old) (D.size disk.old) }
    ensures counted { (state : State) → IsKeptOf kept.old state (D.history disk.old)
        → IfOk result (λ copies. copies ≡ 18 + nodes_reached state kept.old.fs.tree.owner) }
    ensures sound { (state : State) (events : List Event) → D.history disk.old ≡ Recorded events
        → IsKeptOf kept.old state (D.history disk.old) → BreaksNone result }
    ensures kept { IsKept kept.new (D.history disk.new) (D.size disk.new) }
    ensures looked { HasReadNodes kept.old kept.new (D.history disk.old) (D.history disk.new) (D.size disk.old)
        (D.size disk.new) }
    ensures stops { StopsForCause result kept.old.fs.land.blocks.draft.sizes (D.size disk.old) }
    ensures cause { HasCause BlockFault.Disk (D.faults disk.old) (D.faults disk.new) result }
{
    let _ascending = kept.fs.refs.refs().len();
    let nodes = qg_image_changes::subvolumes::count_nodes(
        kept.alloc,
        &mut kept.fs.land,
        disk,
        &kept.fs.tree,
        reads,
    )?;
    if nodes > MOST_NODES {
        return Err(BlockFault::NoMemory);
    }
    Ok(COPIES + nodes)
}

// The nodes that may be copied where a snapshot's group goes into so many groups. More than 2^48 are told in no memory.
fn copies_with(parents: &[GroupId]) -> Result<u64, NoMemory>
    ensures { IfOk result (λ copies. copies ≡ 18 + length parents.now) }
{
    let count = parents.len() as u64;
    if count > MOST_NODES {
        return Err(NoMemory);
    }
    Ok(COPIES + count)
}

/// Why a structural command that may copy so many nodes is refused at last.
pub(crate) fn no_commit(kept: &OpenImage, copies: u64) -> Result<Option<Refusal>, NoMemory>
    requires size { IsNodeSize kept.now.superblock.nodesize }
    ensures value { IfOk result (λ why. why ≡ commit_refusal kept.now copies) }
    ensures enough { IfOk result (λ why. IfNone why (structural_need_of kept.now copies
        ≤ free_slots kept.now.fs.land.space)) }
    ensures early { IfOk result (λ why. IfNone why (kept.now.superblock.generation ≤ 2 ^ 63)) }
    ensures table { IsTable kept.now.fs.refs.refs }
{
    let _ascending = kept.fs.refs.refs().len();
    if kept.superblock.generation.value() > LAST_GENERATION {
        return Ok(Some(Refusal::NoGeneration));
    }
    let need = structural_need(kept, copies)?;
    let free = kept.fs.land.space.free_slots();
    if free < need {
        return Ok(Some(Refusal::NoNodes { free, need }));
    }
    Ok(None)
}

/// What is pending is committed, where something is. What a structural command needs is there then, but for that
/// commit.
pub(crate) fn commit_pending<D: Disk, L: Ledger>(
    kept: &mut OpenImage,
    disk: &mut D,
    reads: &mut Steps<L>,
) -> Result<(), BlockFault>
    requires kept { IsKept kept.old (D.history disk.old) (D.size disk.old) }
    requires early { kept.old.superblock.generation ≤ 2 ^ 63 }
    ensures kept { IfOk result (λ done. IsKept kept.new (D.history disk.new) (D.size disk.new)) }
    ensures settled { OnOk result (IsSettledFrom kept.old kept.new) }
    ensures room { (copies : ℕ) → structural_need_of kept.old copies ≤ free_slots kept.old.fs.land.space
        → OnOk result (HasRoom kept.new copies) }
    ensures committed { (state : State) (events : List Event) → IsKeptOf kept.old state (D.history disk.old)
        → D.history disk.old ≡ Recorded events
        → OnOk result (HasCommitted state kept.new events (D.history disk.new)) }
    ensures so_far { (state : State) (events : List Event) → IsKeptOf kept.old state (D.history disk.old)
        → D.history disk.old ≡ Recorded events → IsDoneFirst state events (D.history disk.new) }
    ensures sound { (state : State) (events : List Event) → D.history disk.old ≡ Recorded events
        → IsKeptOf kept.old state (D.history disk.old) → BreaksNone result }
    ensures calls { CallsPending kept.old kept.new (D.history disk.old) (D.history disk.new) (D.size disk.old) result }
    ensures err { IfErr result
        (λ fault. StaysLast StopsPending kept.old kept.new (D.history disk.old) (D.history disk.new)) }
    ensures sizes { (sizes_of kept.new.superblock ≡ sizes_of kept.old.superblock)
        × (D.size disk.old ≤ D.size disk.new) }
    ensures cause { HasCause BlockFault.Disk (D.faults disk.old) (D.faults disk.new) result }
{
    if kept.pending == 0 {
        return Ok(());
    }
    commit_now(kept, disk, reads)
}
