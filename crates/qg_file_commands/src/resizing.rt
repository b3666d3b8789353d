// A file is cut to a size, or grows to it.
ghost use Rattle.std.specs.Prelude.{◌≡◌, ◌≤◌, ◌<◌, ◌∷◌, [], not, List, IfNone, IfOk, IsTrue, nat_le};
ghost use Rattle.qg_device.specs.Cause.{HasCause};
ghost use Rattle.qg_device.specs.History.{Event, Recorded};
ghost use Rattle.qg_num.specs.declared.command.Command.TheVariants.{Truncate};
ghost use Rattle.qg_num.specs.declared.refusal.Refusal.TheVariants as why;
ghost use Rattle.qg_image.specs.FilesOf.{is_aligned, largest_size};
ghost use Rattle.qg_image.specs.ItemMeaning.{first_some};
ghost use Rattle.qg_image.specs.State.{State};
ghost use Rattle.qg_machine.specs.Refusals.{most_pending, no_far, refuse};
ghost use Rattle.qg_blocks.specs.Stopping.{StopsForCause};
ghost use Rattle.qg_blocks.specs.NodesFound.{BreaksNone};
ghost use Rattle.qg_open_image.specs.Answering.{Answered, is_unchanging};
ghost use Rattle.qg_open_image.specs.Keeping.{IsKept, IsKeptOf, SameButClean};
ghost use Rattle.qg_file_commands.specs.Reading.{AsksForFew};

use crate::finding::{inode_in, pieces_in};
use crate::ranges::MOST_PENDING;
use qg_disk::Disk;
use qg_num::{Answer, BlockFault, Ino, Refusal, RootId, Steps};
use qg_open_image::file_edits::Found;
use qg_open_image::{OpenImage, count_pending, no_nodes, turn_to};
use qg_super::SECTOR;
use qg_tree_items::LARGEST_SIZE;
use std::sync::ledger::Ledger;

/// Sets a file's size in bytes, or refuses to.
pub fn truncate<D: Disk, L: Ledger>(
    kept: &mut OpenImage,
    disk: &mut D,
    sub: RootId,
    ino: Ino,
    size: u64,
    reads: &mut Steps<L>,
) -> Result<Answer, BlockFault>
    requires kept { IsKept kept.old (D.history disk.old) (D.size disk.old) }
    ensures kept { IfOk result (λ answer. IsKept kept.new (D.history disk.new) (D.size disk.new)) }
    ensures step { (state : State) → IsKeptOf kept.old state (D.history disk.old)
        → IfOk result (λ answer. Answered state (Truncate sub ino size) answer [] kept.new (D.history disk.new)) }
    ensures sound { (state : State) (events : List Event) → D.history disk.old ≡ Recorded events
        → IsKeptOf kept.old state (D.history disk.old) → BreaksNone result }
    ensures unchanged { IfOk result (λ answer. IsTrue (is_unchanging answer) → SameButClean kept.old kept.new) }
    ensures reads { IfOk result
        (λ answer. AsksForFew kept.old (D.history disk.old) (Truncate sub ino size) answer reads.old reads.new) }
    ensures superblock { kept.new.superblock ≡ kept.old.superblock }
    ensures apart { (D.history disk.new ≡ D.history disk.old) × (D.size disk.new ≡ D.size disk.old) }
    ensures stops { StopsForCause result kept.old.fs.land.blocks.draft.sizes (D.size disk.old) }
    ensures cause { HasCause BlockFault.Disk (D.faults disk.old) (D.faults disk.new) result }
{
    if !turn_to(kept, sub) {
        return Ok(Answer::Refused(Refusal::NoSub));
    }
    let Some(inode) = inode_in(kept, disk, ino, reads)? else {
        return Ok(Answer::Refused(Refusal::NoFile));
    };
    if let Some(why) = refusal_of_size(size, kept.pending) {
        return Ok(Answer::Refused(why));
    }
    let met = pieces_in(kept, disk, ino, size, LARGEST_SIZE, reads)?;
    if let Some(why) = no_nodes(kept, met.len() as u64)? {
        return Ok(Answer::Refused(why));
    }
    let found = Found {
        inode: Some(inode),
        met,
    };
    qg_open_image::file_edits::truncate(&mut kept.fs, kept.alloc, disk, ino, size, found, reads)?;
    count_pending(kept);
    Ok(Answer::Done)
}

// Why a file that is there may not get a size, where so many commands are pending, before the free slots are counted.
fn refusal_of_size(size: u64, pending: u64) -> Option<Refusal>
    ensures value { result ≡ first_some
        (refuse (not (is_aligned size)) why.Align ∷ no_far (size ∷ [])
        ∷ refuse (nat_le most_pending pending) why.TooMany
        ∷ []) }
    ensures aligned { IfNone result (IsTrue (is_aligned size)) }
    ensures near { IfNone result (size ≤ largest_size) }
    ensures few { IfNone result (pending < 65536) }
{
    if size % SECTOR != 0 {
        Some(Refusal::Align)
    } else if size > LARGEST_SIZE {
        Some(Refusal::Far)
    } else if pending >= MOST_PENDING {
        Some(Refusal::TooMany)
    } else {
        None
    }
}
