// Quota is turned on or off, and groups, relations and limits change.
ghost use Rattle.std.specs.Prelude.{◌≡◌, ℕ, [], IfSome, IsTrue, List, None, OnOk, Some};
ghost use Rattle.std.specs.List.Sorted.{IsStrictlyIncreasing};
ghost use Rattle.std.specs.Option.{option_map};
ghost use Rattle.qg_device.specs.History.{History};
ghost use Rattle.qg_num.specs.declared.answer.Answer.TheVariants.{Done};
ghost use Rattle.qg_image.specs.Table.{keys_of};
ghost use Rattle.qg_image.specs.Members.{hierarchy_of};
ghost use Rattle.qg_image.specs.State.{State};
ghost use Rattle.qg_machine.specs.GroupChange.{quota_for};
ghost use Rattle.qg_qgroups.specs.Changing.{change_fault, change_refusal, group_changed, is_group_command};
ghost use Rattle.qg_qgroups.specs.OnOrOff.{quota_changed};
ghost use Rattle.qg_qgroups.specs.Tracked.{HoldsAtMost, IsTracked, quota_of};
ghost use Rattle.qg_open_image.specs.Keeping.{HoldsPending, IsFitted, IsKeptOf};
ghost use Rattle.qg_image_changes.specs.Changing.{HasRoom, IsChanged, SameHeldIn, group_copies};

use qg_num::{Command, Generation, NoMemory};
use qg_open_image::OpenImage;
use qg_qgroups::QuotaState;

/// Does what a command of quota changes. Nothing is written to the disk.
pub fn change_groups(kept: &mut OpenImage, command: &Command) -> Result<(), NoMemory>
    requires fitted { IsFitted kept.old }
    requires group { IsTrue (is_group_command command.now) }
    requires free { change_refusal (quota_of kept.old.quota) (keys_of kept.old.snapshots) command.now ≡ None }
    requires room { HasRoom kept.old (group_copies kept.old command.now) }
    ensures fitted { OnOk result (IsFitted kept.new) }
    ensures rest { kept.new ≡ record kept.old { quota = kept.new.quota } }
    ensures changed { (state : State) (history : History) → IsKeptOf kept.old state history
        → kept.old.pending ≡ 0 → OnOk result (IsChanged state command.now Done kept.new history) }
{
    let next = kept.fs.tree.next();
    change_quota(kept, command, next)?;
    Ok(())
}

// Turns quota on or off, or changes groups, relations or limits, in a generation. Nothing is held where nothing was.
fn change_quota(kept: &mut OpenImage, command: &Command, stamp: Generation) -> Result<(), NoMemory>
    requires tracked { IfSome kept.old.quota IsTracked }
    requires ascending { IsStrictlyIncreasing (keys_of kept.old.snapshots) }
    requires free { change_refusal (quota_of kept.old.quota) (keys_of kept.old.snapshots) command.now ≡ None }
    ensures changed { OnOk result (quota_of kept.new.quota
        ≡ quota_changed stamp (keys_of kept.old.snapshots) command.now (quota_of kept.old.quota)) }
    ensures tracked { OnOk result (IfSome kept.new.quota IsTracked) }
    ensures most { OnOk result ((bound : ℕ) → IfSome kept.old.quota (HoldsAtMost bound)
        → IfSome kept.new.quota (HoldsAtMost bound)) }
    ensures none { OnOk result (HoldsPending kept.old [] → HoldsPending kept.new []) }
    ensures rest { kept.new ≡ record kept.old { quota = kept.new.quota } }
{
    match command {
        Command::QuotaOn => turn_on(kept, stamp),
        Command::QuotaOff => {
            kept.quota = None;
            Ok(())
        }
        _ => change_tracked(kept, command, stamp),
    }
}

// Quota is turned on: each subvolume gets its group.
fn turn_on(kept: &mut OpenImage, stamp: Generation) -> Result<(), NoMemory>
    requires ascending { IsStrictlyIncreasing (keys_of kept.old.snapshots) }
    ensures quota { OnOk result (quota_of kept.new.quota ≡ Some (quota_for stamp (keys_of kept.old.snapshots))) }
    ensures tracked { OnOk result (IfSome kept.new.quota IsTracked) }
    ensures none { OnOk result (HoldsPending kept.new []) }
    ensures rest { kept.new ≡ record kept.old { quota = kept.new.quota } }
{
    let quota = QuotaState::of_subvolumes(kept.alloc, kept.snapshots.as_slice(), stamp)?;
    kept.quota = Some(quota);
    Ok(())
}

// Groups, relations or limits are changed, while quota is on.
fn change_tracked(
    kept: &mut OpenImage,
    command: &Command,
    stamp: Generation,
) -> Result<(), NoMemory>
    requires tracked { IfSome kept.old.quota IsTracked }
    requires free { IfSome kept.old.quota (λ quota. change_fault (hierarchy_of quota.quota) command.now ≡ None) }
    ensures changed { OnOk result (quota_of kept.new.quota
        ≡ option_map (group_changed stamp command.now) (quota_of kept.old.quota)) }
    ensures tracked { OnOk result (IfSome kept.new.quota IsTracked) }
    ensures held { OnOk result (SameHeldIn kept.old kept.new) }
    ensures rest { kept.new ≡ record kept.old { quota = kept.new.quota } }
{
    match &mut kept.quota {
        None => Ok(()),
        Some(quota) => {
            quota.change(command, stamp)?;
            Ok(())
        }
    }
}
