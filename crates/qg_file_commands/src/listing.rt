// A file's pieces are listed.
ghost use Rattle.std.specs.Prelude.{◌≡◌, [], List, IfOk};
ghost use Rattle.qg_device.specs.Cause.{HasCause};
ghost use Rattle.qg_device.specs.History.{Event, Recorded};
ghost use Rattle.qg_num.specs.declared.command.Command.TheVariants.{Ls};
ghost use Rattle.qg_image.specs.State.{State};
ghost use Rattle.qg_blocks.specs.Stopping.{StopsForCause};
ghost use Rattle.qg_blocks.specs.NodesFound.{BreaksNone};
ghost use Rattle.qg_open_image.specs.Answering.{Answered};
ghost use Rattle.qg_open_image.specs.Editing.{HasLooked};
ghost use Rattle.qg_open_image.specs.Keeping.{IsKept, IsKeptOf};

use qg_disk::Disk;
use qg_num::{Answer, BlockFault, Ino, Refusal, RootId, Steps};
use qg_open_image::inodes::file_of;
use qg_open_image::{OpenImage, turn_to};
use std::sync::ledger::Ledger;

/// A file's size in bytes and its pieces, or why they are not told.
pub fn list<D: Disk, L: Ledger>(
    kept: &mut OpenImage,
    disk: &mut D,
    sub: RootId,
    ino: Ino,
    reads: &mut Steps<L>,
) -> Result<Answer, BlockFault>
    requires kept { IsKept kept.old (D.history disk.old) (D.size disk.old) }
    ensures kept { IsKept kept.new (D.history disk.new) (D.size disk.new) }
    ensures step { (state : State) → IsKeptOf kept.old state (D.history disk.old)
        → IfOk result (λ answer. Answered state (Ls sub ino) answer [] kept.new (D.history disk.new)) }
    ensures sound { (state : State) (events : List Event) → D.history disk.old ≡ Recorded events
        → IsKeptOf kept.old state (D.history disk.old) → BreaksNone result }
    ensures looked { HasLooked kept.old kept.new (D.history disk.old) (D.history disk.new) (D.size disk.old)
        (D.size disk.new) }
    ensures stops { StopsForCause result kept.old.fs.land.blocks.draft.sizes (D.size disk.old) }
    ensures cause { HasCause BlockFault.Disk (D.faults disk.old) (D.faults disk.new) result }
{
    if !turn_to(kept, sub) {
        return Ok(Answer::Refused(Refusal::NoSub));
    }
    let file = file_of(
        &kept.fs.tree,
        kept.alloc,
        &mut kept.fs.land.blocks,
        disk,
        ino,
        reads,
    )?;
    match file {
        None => Ok(Answer::Refused(Refusal::NoFile)),
        Some(file) => Ok(Answer::File {
            size: file.size,
            pieces: file.pieces,
        }),
    }
}
