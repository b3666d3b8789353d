// Quota is turned on or off, and groups, relations and limits change.
ghost use Rattle.std.specs.Prelude.{◌≡◌, ◌≤◌, IfErr, IfOk, IsTrue, List};
ghost use Rattle.qg_device.specs.Cause.{HasCause};
ghost use Rattle.qg_device.specs.History.{Event, Recorded};
ghost use Rattle.qg_num.specs.declared.answer.Answer.TheVariants.{Done};
ghost use Rattle.qg_super.specs.SuperText.{sizes_of};
ghost use Rattle.qg_image.specs.State.{State};
ghost use Rattle.qg_blocks.specs.NodesFound.{BreaksNone};
ghost use Rattle.qg_qgroups.specs.Changing.{is_group_command};
ghost use Rattle.qg_image_commits.specs.Answering.{AnswersOn, IsDoneSoFar, is_unchanging};
ghost use Rattle.qg_image_commits.specs.Editing.{HasLooked};
ghost use Rattle.qg_image_commits.specs.Keeping.{IsFitted, IsKept, IsKeptOf};
ghost use Rattle.qg_image_commits.specs.Stored.{KnowsLast};
ghost use Rattle.qg_store.specs.Stopping.{StopsByRead};
ghost use Rattle.qg_image_changes.specs.Changing.{group_copies};

use crate::structural::{COPIES, commit_pending, no_commit};
use qg_disk::Disk;
use qg_image_changes::change_groups;
use qg_image_commits::commit_now;
use qg_image_commits::open_image::OpenImage;
use qg_num::{Answer, BlockFault, Command, Steps};
use qg_qgroups::refusal_of;
use std::sync::ledger::Ledger;

/// Turns quota on or off, or changes groups, relations or limits, or refuses to. What is pending is committed first,
/// and the change then.
pub(crate) fn regroup<D: Disk, L: Ledger>(
    kept: &mut OpenImage,
    disk: &mut D,
    command: &Command,
    reads: &mut Steps<L>,
) -> Result<Answer, BlockFault>
    requires kept { IsKept kept.old (D.history disk.old) (D.size disk.old) }
    requires group { IsTrue (is_group_command command.now) }
    ensures kept { IfOk result (λ answer. IsKept kept.new (D.history disk.new) (D.size disk.new)) }
    ensures step { (state : State) (events : List Event) → IsKeptOf kept.old state (D.history disk.old)
        → D.history disk.old ≡ Recorded events
        → IfOk result (λ answer. AnswersOn state command.now answer kept.new events (D.history disk.new)) }
    ensures so_far { (state : State) (events : List Event) → IsKeptOf kept.old state (D.history disk.old)
        → D.history disk.old ≡ Recorded events
        → IsDoneSoFar state command.now events (D.history disk.new) }
    ensures sound { (state : State) (events : List Event) → D.history disk.old ≡ Recorded events
        → IsKeptOf kept.old state (D.history disk.old) → BreaksNone result }
    ensures refused { IfOk result (λ answer. IsTrue (is_unchanging answer) → HasLooked kept.old kept.new
        (D.history disk.old) (D.history disk.new) (D.size disk.old) (D.size disk.new)) }
    ensures err { IfErr result
        (λ fault. KnowsLast command.now kept.old kept.new (D.history disk.old) (D.history disk.new)) }
    ensures intact { StopsByRead result command.now kept.old kept.new (D.history disk.old) (D.history disk.new)
        (D.size disk.old) }
    ensures sizes { (sizes_of kept.new.superblock ≡ sizes_of kept.old.superblock)
        × (D.size disk.old ≤ D.size disk.new) }
    ensures cause { HasCause BlockFault.Disk (D.faults disk.old) (D.faults disk.new) result }
{
    if let Some(why) = refusal_of(&kept.quota, kept.snapshots.as_slice(), command) {
        return Ok(Answer::Refused(why));
    }
    let copies = copies_of(kept, command);
    if let Some(why) = no_commit(kept, copies)? {
        return Ok(Answer::Refused(why));
    }
    commit_pending(kept, disk, reads)?;
    change_groups(kept, command)?;
    commit_now(kept, disk, reads)?;
    Ok(Answer::Done)
}

// The nodes that a command of quota may copy.
fn copies_of(kept: &OpenImage, command: &Command) -> u64
    requires fitted { IsFitted kept.now }
    ensures { result ≡ group_copies kept.now command.now }
{
    match command {
        Command::QuotaOn => COPIES + kept.snapshots.len() as u64,
        _ => COPIES,
    }
}
