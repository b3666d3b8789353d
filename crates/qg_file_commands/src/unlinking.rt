// A file is taken away.
ghost use Rattle.std.specs.Prelude.{◌≡◌, [], List, IfOk, IsTrue};
ghost use Rattle.qg_device.specs.Cause.{HasCause};
ghost use Rattle.qg_device.specs.History.{Event, Recorded};
ghost use Rattle.qg_num.specs.declared.command.Command.TheVariants.{Unlink};
ghost use Rattle.qg_image.specs.State.{State};
ghost use Rattle.qg_blocks.specs.Stopping.{StopsForCause};
ghost use Rattle.qg_blocks.specs.NodesFound.{BreaksNone};
ghost use Rattle.qg_open_image.specs.Answering.{Answered, is_unchanging};
ghost use Rattle.qg_open_image.specs.Keeping.{IsKept, IsKeptOf, SameButClean};
ghost use Rattle.qg_file_commands.specs.Reading.{AsksForFew};

use crate::finding::{inode_in, pieces_in};
use crate::ranges::MOST_PENDING;
use qg_disk::Disk;
use qg_num::{Answer, BlockFault, Ino, Refusal, RootId, Steps};
use qg_open_image::{OpenImage, count_pending, no_nodes, turn_to};
use qg_tree_items::LARGEST_SIZE;
use std::sync::ledger::Ledger;

/// Takes a file away, or refuses to.
pub fn unlink<D: Disk, L: Ledger>(
    kept: &mut OpenImage,
    disk: &mut D,
    sub: RootId,
    ino: Ino,
    reads: &mut Steps<L>,
) -> Result<Answer, BlockFault>
    requires kept { IsKept kept.old (D.history disk.old) (D.size disk.old) }
    ensures kept { IfOk result (λ answer. IsKept kept.new (D.history disk.new) (D.size disk.new)) }
    ensures step { (state : State) → IsKeptOf kept.old state (D.history disk.old)
        → IfOk result (λ answer. Answered state (Unlink sub ino) answer [] kept.new (D.history disk.new)) }
    ensures sound { (state : State) (events : List Event) → D.history disk.old ≡ Recorded events
        → IsKeptOf kept.old state (D.history disk.old) → BreaksNone result }
    ensures unchanged { IfOk result (λ answer. IsTrue (is_unchanging answer) → SameButClean kept.old kept.new) }
    ensures reads { IfOk result
        (λ answer. AsksForFew kept.old (D.history disk.old) (Unlink sub ino) answer reads.old reads.new) }
    ensures superblock { kept.new.superblock ≡ kept.old.superblock }
    ensures apart { (D.history disk.new ≡ D.history disk.old) × (D.size disk.new ≡ D.size disk.old) }
    ensures stops { StopsForCause result kept.old.fs.land.blocks.draft.sizes (D.size disk.old) }
    ensures cause { HasCause BlockFault.Disk (D.faults disk.old) (D.faults disk.new) result }
{
    if !turn_to(kept, sub) {
        return Ok(Answer::Refused(Refusal::NoSub));
    }
    if inode_in(kept, disk, ino, reads)?.is_none() {
        return Ok(Answer::Refused(Refusal::NoFile));
    }
    if kept.pending >= MOST_PENDING {
        return Ok(Answer::Refused(Refusal::TooMany));
    }
    let met = pieces_in(kept, disk, ino, 0, LARGEST_SIZE, reads)?;
    if let Some(why) = no_nodes(kept, met.len() as u64)? {
        return Ok(Answer::Refused(why));
    }
    qg_open_image::file_edits::unlink(&mut kept.fs, kept.alloc, disk, ino, met, reads)?;
    count_pending(kept);
    Ok(Answer::Done)
}
