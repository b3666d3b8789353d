// A range of a file is cloned.
ghost use Rattle.std.specs.Prelude.{◌≡◌, ◌+◌, ◌*◌, ◌<◌, ◌≤◌, [], ℕ, List, None, Some, IfOk, IsTrue};
ghost use Rattle.qg_device.specs.Cause.{HasCause};
ghost use Rattle.qg_device.specs.History.{Event, Recorded};
ghost use Rattle.qg_num.specs.declared.command.Command.TheVariants.{Clone};
ghost use Rattle.qg_image.specs.FilesOf.{inodes_end, least_inode};
ghost use Rattle.qg_image.specs.Table.{value_at};
ghost use Rattle.qg_image.specs.State.{State, Subvolume};
ghost use Rattle.qg_blocks.specs.Stopping.{StopsForCause};
ghost use Rattle.qg_blocks.specs.NodesFound.{BreaksNone};
ghost use Rattle.qg_inodes.specs.PiecesWritten.{pieces_met};
ghost use Rattle.qg_open_image.specs.Files.{pieces_of};
ghost use Rattle.qg_machine.specs.FileChange.{FileChange, file_change};
ghost use Rattle.qg_machine.specs.Refusals.{over_limit};
ghost use Rattle.qg_machine.specs.Work.{is_accepted};
ghost use Rattle.qg_open_image.specs.Answering.{Answered, is_unchanging};
ghost use Rattle.qg_open_image.specs.Editing.{clone_refusal};
ghost use Rattle.qg_open_image.specs.Keeping.{IsKept, IsKeptOf, SameButClean};
ghost use Rattle.qg_file_commands.specs.Ranges.{CanClonePieces};
ghost use Rattle.qg_file_commands.specs.Reading.{AsksForFew};
ghost use Rattle.qg_file_commands.specs.Reserving.{CanReserve};

use crate::finding::{found_in, inode_in, pieces_in};
use crate::ranges::{do_overlap, refusal_of_clone};
use crate::reserving::{accept, judge};
use qg_disk::Disk;
use qg_num::{Answer, BlockFault, GroupId, Ino, Pieces, Refusal, RootId, Steps};
use qg_open_image::{OpenImage, no_nodes, turn_to};
use qg_qgroups::ReservationAnswer;
use std::sync::ledger::Ledger;

/// Clones a range of a file, in bytes, into a range of a file of this or another subvolume, or refuses to.
pub fn clone<D: Disk, L: Ledger>(
    kept: &mut OpenImage,
    disk: &mut D,
    sub: RootId,
    ino: Ino,
    off: u64,
    len: u64,
    to_sub: RootId,
    to_ino: Ino,
    to_off: u64,
    reads: &mut Steps<L>,
) -> Result<Answer, BlockFault>
    requires kept { IsKept kept.old (D.history disk.old) (D.size disk.old) }
    requires least { least_inode ≤ to_ino }
    requires below { to_ino < inodes_end }
    ensures kept { IfOk result (λ answer. IsKept kept.new (D.history disk.new) (D.size disk.new)) }
    ensures step { (state : State) → IsKeptOf kept.old state (D.history disk.old)
        → IfOk result (λ answer. Answered state (Clone sub ino off len to_sub to_ino to_off) answer [] kept.new
        (D.history disk.new)) }
    ensures sound { (state : State) (events : List Event) → D.history disk.old ≡ Recorded events
        → IsKeptOf kept.old state (D.history disk.old) → BreaksNone result }
    ensures unchanged { IfOk result (λ answer. IsTrue (is_unchanging answer) → SameButClean kept.old kept.new) }
    ensures reads { IfOk result (λ answer. AsksForFew kept.old (D.history disk.old)
        (Clone sub ino off len to_sub to_ino to_off) answer reads.old reads.new) }
    ensures superblock { kept.new.superblock ≡ kept.old.superblock }
    ensures apart { (D.history disk.new ≡ D.history disk.old) × (D.size disk.new ≡ D.size disk.old) }
    ensures stops { StopsForCause result kept.old.fs.land.blocks.draft.sizes (D.size disk.old) }
    ensures cause { HasCause BlockFault.Disk (D.faults disk.old) (D.faults disk.new) result }
{
    if !turn_to(kept, to_sub) {
        return Ok(Answer::Refused(Refusal::NoSub));
    }
    if !turn_to(kept, sub) {
        return Ok(Answer::Refused(Refusal::NoSub));
    }
    let Some(inode) = inode_in(kept, disk, ino, reads)? else {
        return Ok(Answer::Refused(Refusal::NoFile));
    };
    let overlap = do_overlap(sub, ino, off, to_sub, to_ino, to_off, len);
    if let Some(why) = refusal_of_clone(inode.size, off, len, to_off, overlap, kept.pending) {
        return Ok(Answer::Refused(why));
    }
    let judged = judge(kept, to_sub, u64::from(kept.superblock.nodesize))?;
    let path = match judged {
        ReservationAnswer::Over(group, which) => {
            return Ok(Answer::Refused(Refusal::Quota { group, which }));
        }
        ReservationAnswer::Path(path) => path,
    };
    let source = pieces_in(kept, disk, ino, off, off + len, reads)?;
    clone_pieces(
        kept,
        disk,
        &source,
        off,
        len,
        to_sub,
        to_ino,
        to_off,
        path.as_slice(),
        reads,
    )
}

// Clones what was read of the source's range, where it finds the slots that it needs.
fn clone_pieces<D: Disk, L: Ledger>(
    kept: &mut OpenImage,
    disk: &mut D,
    source: &Pieces,
    off: u64,
    len: u64,
    to_sub: RootId,
    to_ino: Ino,
    to_off: u64,
    path: &[GroupId],
    reads: &mut Steps<L>,
) -> Result<Answer, BlockFault>
    requires kept { IsKept kept.old (D.history disk.old) (D.size disk.old) }
    requires reserves { CanReserve kept.old path.now to_sub }
    requires pieces { CanClonePieces source.now off len to_ino to_off }
    ensures kept { IfOk result (λ answer. IsKept kept.new (D.history disk.new) (D.size disk.new)) }
    ensures step { (state : State) (sub ino : ℕ) (from : Subvolume) → IsKeptOf kept.old state (D.history disk.old)
        → value_at sub state.subvolumes ≡ Some from → source.now ≡ pieces_met off (off + len) (pieces_of ino from.files)
        → clone_refusal state sub ino off len to_sub to_ino to_off ≡ None
        → over_limit state to_sub state.sizes.nodesize ≡ None
        → IfOk result (λ answer. Answered state (Clone sub ino off len to_sub to_ino to_off) answer [] kept.new
        (D.history disk.new)) }
    ensures sound { (state : State) (events : List Event) (sub ino : ℕ) (from : Subvolume)
        → D.history disk.old ≡ Recorded events → IsKeptOf kept.old state (D.history disk.old)
        → value_at sub state.subvolumes ≡ Some from → source.now ≡ pieces_met off (off + len) (pieces_of ino from.files)
        → BreaksNone result }
    ensures unchanged { IfOk result (λ answer. IsTrue (is_unchanging answer) → SameButClean kept.old kept.new) }
    ensures reads { (state : State) (sub ino : ℕ) (from : Subvolume) (change : FileChange)
        → IsKeptOf kept.old state (D.history disk.old)
        → value_at sub state.subvolumes ≡ Some from → source.now ≡ pieces_met off (off + len) (pieces_of ino from.files)
        → file_change state (Clone sub ino off len to_sub to_ino to_off) ≡ Some change
        → IfOk result (λ answer. IsTrue (is_accepted answer) → reads.new ≤ reads.old + 53 * (change.pieces + 3)) }
    ensures superblock { kept.new.superblock ≡ kept.old.superblock }
    ensures apart { (D.history disk.new ≡ D.history disk.old) × (D.size disk.new ≡ D.size disk.old) }
    ensures stops { StopsForCause result kept.old.fs.land.blocks.draft.sizes (D.size disk.old) }
    ensures cause { HasCause BlockFault.Disk (D.faults disk.old) (D.faults disk.new) result }
{
    if !turn_to(kept, to_sub) {
        return Ok(Answer::Refused(Refusal::NoSub));
    }
    let found = found_in(kept, disk, to_ino, to_off, to_off + len, reads)?;
    let pieces = source.len() as u64 + found.met.len() as u64;
    if let Some(why) = no_nodes(kept, pieces)? {
        return Ok(Answer::Refused(why));
    }
    qg_open_image::file_edits::clone_into(
        &mut kept.fs,
        kept.alloc,
        disk,
        source,
        off,
        len,
        to_ino,
        to_off,
        found,
        reads,
    )?;
    let amount = u64::from(kept.superblock.nodesize);
    accept(kept, path, amount)?;
    Ok(Answer::Done)
}
