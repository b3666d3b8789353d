// A range of a file is written.
ghost use Rattle.std.specs.Prelude.{◌≡◌, ◌≤◌, ◌<◌, ℕ, [], List, IfOk, IfSome, IsTrue};
ghost use Rattle.qg_device.specs.Cause.{HasCause};
ghost use Rattle.qg_device.specs.History.{Event, History, Recorded};
ghost use Rattle.qg_num.specs.declared.command.Command.TheVariants.{Write};
ghost use Rattle.qg_image.specs.FilesOf.{inodes_end, is_aligned, least_inode};
ghost use Rattle.qg_image.specs.Space.{first_run};
ghost use Rattle.qg_image.specs.State.{State};
ghost use Rattle.qg_blocks.specs.Stopping.{StopsForCause};
ghost use Rattle.qg_blocks.specs.NodesFound.{BreaksNone};
ghost use Rattle.qg_space.specs.Holding.{is_free_run};
ghost use Rattle.qg_open_image.specs.Answering.{Answered, is_unchanging};
ghost use Rattle.qg_open_image.specs.Keeping.{IsKept, IsKeptOf, SameButClean};
ghost use Rattle.qg_file_commands.specs.Reading.{AsksForFew};

use crate::finding::found_in;
use crate::ranges::refusal_of_write;
use crate::reserving::{accept, judge};
use qg_disk::Disk;
use qg_num::{Address, Answer, BlockFault, Ino, Refusal, RootId, Steps};
use qg_open_image::{OpenImage, no_nodes, turn_to};
use qg_qgroups::ReservationAnswer;
use qg_super::SECTOR;
use std::sync::ledger::Ledger;

/// Writes a range of a file, in bytes, or refuses to.
pub fn write<D: Disk, L: Ledger>(
    kept: &mut OpenImage,
    disk: &mut D,
    sub: RootId,
    ino: Ino,
    off: u64,
    len: u64,
    reads: &mut Steps<L>,
) -> Result<Answer, BlockFault>
    requires kept { IsKept kept.old (D.history disk.old) (D.size disk.old) }
    requires least { least_inode ≤ ino }
    requires below { ino < inodes_end }
    ensures kept { IfOk result (λ answer. IsKept kept.new (D.history disk.new) (D.size disk.new)) }
    ensures step { (state : State) → IsKeptOf kept.old state (D.history disk.old)
        → IfOk result (λ answer. Answered state (Write sub ino off len) answer [] kept.new (D.history disk.new)) }
    ensures sound { (state : State) (events : List Event) → D.history disk.old ≡ Recorded events
        → IsKeptOf kept.old state (D.history disk.old) → BreaksNone result }
    ensures unchanged { IfOk result (λ answer. IsTrue (is_unchanging answer) → SameButClean kept.old kept.new) }
    ensures reads { IfOk result
        (λ answer. AsksForFew kept.old (D.history disk.old) (Write sub ino off len) answer reads.old reads.new) }
    ensures superblock { kept.new.superblock ≡ kept.old.superblock }
    ensures apart { (D.history disk.new ≡ D.history disk.old) × (D.size disk.new ≡ D.size disk.old) }
    ensures stops { StopsForCause result kept.old.fs.land.blocks.draft.sizes (D.size disk.old) }
    ensures cause { HasCause BlockFault.Disk (D.faults disk.old) (D.faults disk.new) result }
{
    if !turn_to(kept, sub) {
        return Ok(Answer::Refused(Refusal::NoSub));
    }
    if let Some(why) = refusal_of_write(off, len, kept.pending) {
        return Ok(Answer::Refused(why));
    }
    let amount = len + u64::from(kept.superblock.nodesize);
    let judged = judge(kept, sub, amount)?;
    let path = match judged {
        ReservationAnswer::Over(group, which) => {
            return Ok(Answer::Refused(Refusal::Quota { group, which }));
        }
        ReservationAnswer::Path(path) => path,
    };
    let Some(run) = run_for(kept, len) else {
        return Ok(Answer::Refused(Refusal::NoRun));
    };
    let found = found_in(kept, disk, ino, off, off + len, reads)?;
    if let Some(why) = no_nodes(kept, found.met.len() as u64)? {
        return Ok(Answer::Refused(why));
    }
    qg_open_image::file_edits::write(
        &mut kept.fs,
        kept.alloc,
        disk,
        ino,
        off,
        len,
        run,
        found,
        reads,
    )?;
    accept(kept, path.as_slice(), amount)?;
    Ok(Answer::Extent(run))
}

// The free run of so many bytes with the least address.
fn run_for(kept: &OpenImage, len: u64) -> Option<Address>
    requires aligned { IsTrue (is_aligned len) }
    ensures run { (state : State) (history : History) (bytes : ℕ) → IsKept kept.now history bytes
        → IsKeptOf kept.now state history → result ≡ first_run state len }
    ensures free { IfSome result (λ run. IsTrue (is_free_run kept.now.fs.land.space run len)) }
{
    let _ascending = kept.fs.refs.refs().len();
    kept.fs.land.space.first_run(len / SECTOR)
}
