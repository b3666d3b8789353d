// What is pending is committed.
ghost use Rattle.std.specs.Prelude.{◌≡◌, ◌⊎◌, ◌+◌, ◌≤◌, ◌^◌, ℕ, All, List, None, Some, [], IfOk, IfErr, IfSome};
ghost use Rattle.std.specs.Prelude.{IsErrOf, IsTrue, OnErr, OnOk, false};
ghost use Rattle.qg_device.specs.Cause.{HasCause};
ghost use Rattle.qg_device.specs.History.{Event, History, Recorded, history_after};
ghost use Rattle.qg_num.specs.declared.command.Command.TheVariants.{Commit};
ghost use Rattle.qg_num.specs.declared.piece.Piece.{Piece};
ghost use Rattle.qg_node.specs.declared.item.Item.{Item};
ghost use Rattle.qg_super.specs.SuperText.{sizes_of};
ghost use Rattle.qg_image.specs.Record.{Record};
ghost use Rattle.qg_image.specs.State.{State};
ghost use Rattle.qg_blocks.specs.NodesFound.{BreaksNone, IsBacked, fresh_at};
ghost use Rattle.qg_blocks.specs.Writing.{AreWritten};
ghost use Rattle.qg_open_image.specs.Calls.{IsReadBack};
ghost use Rattle.qg_space.specs.Holding.{free_slots};
ghost use Rattle.qg_open_image.specs.Standing.{CanTurn, IsSubvolume, Stands};
ghost use Rattle.qg_open_image.specs.CommitTreesCommitting.{StandsStill, WritesTree};
ghost use Rattle.qg_open_image.specs.HoldsAfter.{AreForgotten, with_tree_commit};
ghost use Rattle.qg_open_image.specs.Writing.{fresh_nodes};
ghost use Rattle.qg_qgroups.specs.Tracked.{HoldsAll, IsTracked, SameButCounts, quota_of};
ghost use Rattle.qg_open_image.specs.Answering.{AnswersOn, is_unchanging};
ghost use Rattle.qg_image_commits.specs.Committing.{IsLaidBy, KeepsCommit, LaysSoFar, StopsIntact};
ghost use Rattle.qg_open_image.specs.Editing.{HasLooked};
ghost use Rattle.qg_open_image.specs.Keeping.{IsFitted, IsKept, IsKeptOf, IsKeptWith, commit_need};
ghost use Rattle.qg_open_image.specs.Making.{StartsCommit};
ghost use Rattle.qg_open_image.specs.Stored.{StaysLast, StopsPending};
ghost use Rattle.qg_image_commits.specs.Planning.{CommitsOn, IsPlanSo, LeavesOver, StartsCommitOf};
ghost use Rattle.qg_image_commits.specs.Planning.{StopsCommitOf};

use crate::planning::{Plan, plan_of};
use qg_blocks::Blocks;
use qg_disk::Disk;
use qg_image::Quota;
use qg_num::{Address, Answer, BlockFault, Refusal, Steps};
use qg_open_image::OpenImage;
use qg_open_image::commit_trees::committed;
use qg_open_image::other_trees::{OtherTrees, TreeContents};
use qg_open_image::tree_backrefs::BookCopy;
use qg_qgroups::QuotaState;
use std::sync::ledger::Ledger;

/// The greatest committed generation that a commit may meet.
pub const LAST_GENERATION: u64 = 1 << 63;

/// Commits what is pending, or refuses to. Where nothing is pending, nothing is done.
pub fn commit<D: Disk, L: Ledger>(
    kept: &mut OpenImage,
    disk: &mut D,
    reads: &mut Steps<L>,
) -> Result<Answer, BlockFault>
    requires kept { IsKept kept.old (D.history disk.old) (D.size disk.old) }
    ensures kept { IfOk result (λ answer. IsKept kept.new (D.history disk.new) (D.size disk.new)) }
    ensures step { (state : State) (events : List Event) → IsKeptOf kept.old state (D.history disk.old)
        → D.history disk.old ≡ Recorded events
        → IfOk result (λ answer. AnswersOn state Commit answer kept.new events (D.history disk.new)) }
    ensures so_far { (state : State) (events : List Event) → IsKeptOf kept.old state (D.history disk.old)
        → D.history disk.old ≡ Recorded events
        → (D.history disk.new ≡ Recorded events) ⊎ StartsCommit state events (D.history disk.new) }
    ensures sound { (state : State) (events : List Event) → D.history disk.old ≡ Recorded events
        → IsKeptOf kept.old state (D.history disk.old) → BreaksNone result }
    ensures idle { kept.old.pending ≡ 0 → HasLooked kept.old kept.new (D.history disk.old) (D.history disk.new)
        (D.size disk.old) (D.size disk.new) }
    ensures refused { IfOk result (λ answer. IsTrue (is_unchanging answer) → HasLooked kept.old kept.new
        (D.history disk.old) (D.history disk.new) (D.size disk.old) (D.size disk.new)) }
    ensures intact { StopsIntact D.takes_memory result kept.old.fs.land.blocks.draft.sizes (D.size disk.old)
        (D.history disk.old) (D.history disk.new) }
    ensures err { IfErr result
        (λ fault. StaysLast StopsPending kept.old kept.new (D.history disk.old) (D.history disk.new)) }
    ensures sizes { (sizes_of kept.new.superblock ≡ sizes_of kept.old.superblock)
        × (D.size disk.old ≤ D.size disk.new) }
    ensures cause { HasCause BlockFault.Disk (D.faults disk.old) (D.faults disk.new) result }
{
    if kept.pending == 0 {
        return Ok(Answer::Commit(kept.superblock.generation));
    }
    if kept.superblock.generation.value() > LAST_GENERATION {
        return Ok(Answer::Refused(Refusal::NoGeneration));
    }
    commit_now(kept, disk, reads)?;
    Ok(Answer::Commit(kept.superblock.generation))
}

/// Commits what is kept, whatever is pending, and refuses nothing. The second commit of a structural command begins one
/// generation later than any that is let in.
pub fn commit_now<D: Disk, L: Ledger>(
    kept: &mut OpenImage,
    disk: &mut D,
    reads: &mut Steps<L>,
) -> Result<(), BlockFault>
    requires kept { IsKept kept.old (D.history disk.old) (D.size disk.old) }
    requires early { kept.old.superblock.generation ≤ 2 ^ 63 + 1 }
    ensures kept { IfOk result (λ done. IsKept kept.new (D.history disk.new) (D.size disk.new)) }
    ensures commits { (state : State) (events : List Event) (names : List Record)
        → IsKeptWith kept.old state (D.history disk.old) names
        → commit_need kept.old ≤ free_slots kept.old.fs.land.space → D.history disk.old ≡ Recorded events
        → IfOk result (λ done. CommitsOn state kept.new events (D.history disk.new)) }
    ensures so_far { (state : State) (events : List Event) (names : List Record)
        → IsKeptWith kept.old state (D.history disk.old) names
        → commit_need kept.old ≤ free_slots kept.old.fs.land.space → D.history disk.old ≡ Recorded events
        → (D.history disk.new ≡ Recorded events) ⊎ StartsCommitOf state events (D.history disk.new) }
    ensures stops { (state : State) (events : List Event) (names : List Record)
        → IsKeptWith kept.old state (D.history disk.old) names
        → commit_need kept.old ≤ free_slots kept.old.fs.land.space → D.history disk.old ≡ Recorded events
        → OnErr result
        ((D.history disk.new ≡ Recorded events) ⊎ StopsCommitOf state events (D.history disk.new)) }
    ensures sound { (state : State) (events : List Event) (names : List Record)
        → IsKeptWith kept.old state (D.history disk.old) names
        → commit_need kept.old ≤ free_slots kept.old.fs.land.space → D.history disk.old ≡ Recorded events
        → BreaksNone result }
    ensures intact { StopsIntact D.takes_memory result kept.old.fs.land.blocks.draft.sizes (D.size disk.old)
        (D.history disk.old) (D.history disk.new) }
    ensures leaves { OnOk result (LeavesOver kept.old kept.new (D.history disk.old) (D.history disk.new)) }
    ensures err { IfErr result (λ fault. kept.new.superblock ≡ kept.old.superblock) }
    ensures sizes { (sizes_of kept.new.superblock ≡ sizes_of kept.old.superblock)
        × (D.size disk.old ≤ D.size disk.new) }
    ensures cause { HasCause BlockFault.Disk (D.faults disk.old) (D.faults disk.new) result }
{
    let plan = plan_of(kept, disk, reads)?;
    let copy = kept.fs.refs.to_record()?;
    forget_slots(&mut kept.fs.land.blocks, plan.slots.as_slice());
    let trees = write_trees(kept, disk, &plan)?;
    keep_commit(kept, disk, plan, &trees, copy);
    Ok(())
}

// Forgets what is in memory at slots where no fresh node lies.
fn forget_slots(blocks: &mut Blocks, slots: &[Address])
    requires clean { All (λ slot. fresh_at blocks.old.draft slot ≡ None) slots.now }
    ensures same { blocks.new ≡ record blocks.old { clean = blocks.new.clean } }
    ensures forgotten { AreForgotten blocks.new slots.now }
    ensures backed { (history : History) → IsBacked blocks.old history → IsBacked blocks.new history }
{
    for slot in slots {
        blocks.forget(*slot);
    }
}

// Lays the root, extent and quota trees out in the slots of a plan, and writes them and the fresh nodes.
fn write_trees<D: Disk>(
    kept: &OpenImage,
    disk: &mut D,
    plan: &Plan,
) -> Result<OtherTrees, BlockFault>
    requires kept { IsKept kept.now (D.history disk.old) (D.size disk.old) }
    requires early { kept.now.superblock.generation ≤ 2 ^ 63 + 1 }
    requires plan { IsPlanSo kept.now plan.now }
    ensures laid { IfOk result (λ trees. IsLaidBy kept.now plan.now trees) }
    ensures calls { IfOk result (λ trees. D.history disk.new
        ≡ history_after (with_tree_commit kept.now.fs trees) (D.history disk.old)) }
    ensures read { IfOk result (λ trees. All (IsReadBack kept.now.superblock.nodesize)
        (fresh_nodes kept.now.fs.land.blocks.draft)) }
    ensures stopped { (events : List Event) → D.history disk.old ≡ Recorded events
        → IfErr result (λ fault. (D.history disk.new ≡ Recorded events)
        ⊎ LaysSoFar kept.now plan.now events (D.history disk.new)) }
    ensures memory { D.takes_memory ≡ false → IsErrOf result BlockFault.NoMemory → disk.new ≡ disk.old }
    ensures no_less { D.size disk.old ≤ D.size disk.new }
    ensures no_image { IfErr result (λ fault. (fault ≡ BlockFault.Disk) ⊎ (fault ≡ BlockFault.NoMemory)) }
    ensures cause { HasCause BlockFault.Disk (D.faults disk.old) (D.faults disk.new) result }
{
    let told = TreeContents {
        roots: plan.roots.as_slice(),
        book: kept.fs.refs.refs(),
        quota: &plan.quota,
    };
    qg_open_image::image_commit::commit(
        kept.alloc,
        disk,
        &kept.fs.land.blocks,
        kept.superblock.sizes(),
        kept.fs.tree.next(),
        &told,
        plan.slots.as_slice(),
    )
}

// What was laid out is committed, and takes the place of the last commit. It takes no memory.
fn keep_commit<D: Disk>(
    kept: &mut OpenImage,
    disk: &D,
    plan: Plan,
    trees: &OtherTrees,
    copy: BookCopy,
)
    requires fitted { IsFitted kept.old }
    requires early { kept.old.superblock.generation ≤ 2 ^ 63 + 1 }
    requires plan { IsPlanSo kept.old plan }
    requires laid { IsLaidBy kept.old plan trees.now }
    requires backed { IsBacked kept.old.fs.land.blocks (D.history disk.now) }
    requires written { AreWritten kept.old.fs.land.blocks.draft (D.history disk.now) }
    requires copy { copy ≡ kept.old.fs.refs.refs }
    ensures keeps { KeepsCommit kept.old plan trees.now kept.new × CanTurn kept.new.fs }
    ensures subvolume { (before : History) (bytes : ℕ) → IsSubvolume kept.old.fs before bytes
        → bytes ≤ D.size disk.now
        → IsSubvolume kept.new.fs (D.history disk.now) (D.size disk.now) }
    ensures stands { (events : List Event) (bytes : ℕ) (items : List Item) (names : List (ℕ × Piece))
        → IsSubvolume kept.old.fs (Recorded events) bytes → Stands kept.old.fs (Recorded events) items names
        → WritesTree kept.old.fs (Recorded events) (D.history disk.now) → (later : List Event)
        → D.history disk.now ≡ Recorded later
        → StandsStill kept.old.fs kept.new.fs (Recorded events) (D.history disk.now) items names }
{
    let (others, _) = plan.slots.as_slice().split_at(trees.len());
    committed(&mut kept.fs, disk, others, copy);
    kept.superblock = trees.superblock;
    settle_quota(&mut kept.quota, plan.quota);
    kept.pending = 0;
}

// What is tracked takes over quota as a commit counted it anew, and nothing is held any more.
fn settle_quota(tracked: &mut Option<QuotaState>, counted: Option<Quota>)
    requires tracked { IfSome tracked.old IsTracked }
    requires counted { SameButCounts (quota_of tracked.old) counted }
    ensures quota { quota_of tracked.new ≡ counted }
    ensures settled { IfSome tracked.new (λ now. IsTracked now × HoldsAll now []) }
{
    match tracked {
        None => {}
        Some(state) => settle_state(state, counted),
    }
}

// The same while quota is on.
fn settle_state(state: &mut QuotaState, counted: Option<Quota>)
    requires tracked { IsTracked state.old }
    requires counted { SameButCounts (Some state.old.quota) counted }
    ensures quota { Some state.new.quota ≡ counted }
    ensures tracked { IsTracked state.new }
    ensures none { HoldsAll state.new [] }
{
    match counted {
        None => unreachable!(),
        Some(quota) => state.settle(quota),
    }
}
