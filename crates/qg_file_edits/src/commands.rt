// What each file command does to a subvolume's tree.
ghost use Rattle.std.specs.Prelude.{◌≡◌, ◌+◌, ◌*◌, ◌^◌, ◌<◌, ◌≤◌, ℕ, Contains, List, OnOk, IsTrue, length};
ghost use Rattle.qg_device.specs.Cause.{HasCause};
ghost use Rattle.qg_device.specs.History.{Event, Recorded};
ghost use Rattle.qg_image.specs.declared.file.File.{File as FileValue};
ghost use Rattle.qg_image.specs.FilesOf.{is_aligned, largest_size};
ghost use Rattle.qg_image.specs.Table.{value_at, without_key};
ghost use Rattle.qg_machine.specs.FileChange.{pieces_meeting, pieces_past};
ghost use Rattle.qg_image.specs.Need.{file_copies};
ghost use Rattle.qg_blocks.specs.Stopping.{StopsForCause};
ghost use Rattle.qg_blocks.specs.NodesFound.{BreaksNone};
ghost use Rattle.qg_space.specs.Holding.{free_slots, is_free_run};
ghost use Rattle.qg_files.specs.Apart.{AreApart};
ghost use Rattle.qg_file_edits.specs.PiecesWritten.{pieces_met};
ghost use Rattle.qg_tree_read.specs.Tree.{Root};
ghost use Rattle.qg_shared_trees.specs.Standing.{IsSubvolume, trees_of};
ghost use Rattle.qg_file_edits.specs.Changes.{files_cloned_from, files_cut, files_written};
ghost use Rattle.qg_file_edits.specs.Files.{Finds, HasFiles, HoldsFiles, IsFileRange, LeavesFiles};
ghost use Rattle.qg_file_edits.specs.Files.{LeavesHeld, StaysOwn, pieces_of};

use crate::Found;
use crate::changes::{clone_change, cut_change, unlink_change, write_change};
use crate::exchange::make_exchange;
use qg_disk::Disk;
use qg_num::{Address, BlockFault, Ino, Pieces, Steps};
use qg_shared_trees::fs_tree::FsTree;
use std::alloc::Global;
use std::sync::ledger::Ledger;

/// Puts a new extent in a range of a file, in bytes (write(2)): the run of that length at an address, which is free.
/// A file that is missing is made. What was read of it before are its INODE_ITEM and the pieces that the range meets.
///
/// Where the tree has the items of files it has those of the files after the write, as the machine says it, and names
/// what their pieces name. `Image` comes only where the tree has the items of no files, or too few slots are free.
/// After an `Err` nothing of it is of use.
pub fn write<D: Disk, L: Ledger>(
    fs: &mut FsTree,
    alloc: Global,
    disk: &mut D,
    ino: Ino,
    off: u64,
    len: u64,
    run: Address,
    found: Found,
    reads: &mut Steps<L>,
) -> Result<(), BlockFault>
    requires subvolume { IsSubvolume fs.old (D.history disk.old) (D.size disk.old) }
    requires range { IsFileRange ino off len }
    requires free { IsTrue (is_free_run fs.old.land.space run len) }
    requires apart { AreApart found.met }
    ensures written { (files : List (ℕ × FileValue)) → HoldsFiles fs.old (D.history disk.old) files
        → Finds files ino off (off + len) found
        → OnOk result (LeavesFiles fs.old fs.new (D.history disk.old)
        (files_written fs.old.tree.next ino off len run files)
        (pieces_meeting off (off + len) (pieces_of ino files))) }
    ensures sound { (events : List Event) → D.history disk.old ≡ Recorded events → (files : List (ℕ × FileValue))
        → HoldsFiles fs.old (D.history disk.old) files → Finds files ino off (off + len) found
        → 10 * file_copies fs.old.tree.height (pieces_meeting off (off + len) (pieces_of ino files))
        ≤ free_slots fs.old.land.space → BreaksNone result }
    ensures reads { (files : List (ℕ × FileValue)) → HoldsFiles fs.old (D.history disk.old) files
        → Finds files ino off (off + len) found
        → reads.new ≤ reads.old + 45 * (pieces_meeting off (off + len) (pieces_of ino files) + 3) }
    ensures leaves { LeavesHeld fs.old fs.new (D.history disk.old) (D.history disk.new) (D.size disk.old)
        (D.size disk.new) }
    ensures stops { StopsForCause result fs.old.land.blocks.draft.sizes (D.size disk.old) }
    ensures own { OnOk result (StaysOwn fs.old fs.new) }
    ensures cause { HasCause BlockFault.Disk (D.faults disk.old) (D.faults disk.new) result }
{
    let generation = fs.tree.next();
    fits(generation.value());
    fits(run.value());
    let change = write_change(generation, off, len, run, found)?;
    make_exchange(fs, alloc, disk, ino, &change, reads)
}

/// Puts what a source, a file of this subvolume or of another, has in a range of so many bytes from a position on in
/// the range of a file that begins at another (FICLONERANGE). Holes become holes, and a file that is missing is made.
/// What was read before are the pieces that the source's range meets, and of the file its INODE_ITEM and the pieces
/// that its range meets. Else as [`write`].
pub fn clone_into<D: Disk, L: Ledger>(
    fs: &mut FsTree,
    alloc: Global,
    disk: &mut D,
    source: &Pieces,
    from: u64,
    len: u64,
    ino: Ino,
    off: u64,
    found: Found,
    reads: &mut Steps<L>,
) -> Result<(), BlockFault>
    requires subvolume { IsSubvolume fs.old (D.history disk.old) (D.size disk.old) }
    requires source_apart { AreApart source.now }
    requires source_aligned { IsTrue (is_aligned from) }
    requires source_near { from + len ≤ largest_size }
    requires range { IsFileRange ino off len }
    requires apart { AreApart found.met }
    ensures cloned { (files source_files : List (ℕ × FileValue)) (tree : Root) (other : ℕ)
        → HoldsFiles fs.old (D.history disk.old) files → Contains (trees_of fs.old) tree
        → HasFiles fs.old (D.history disk.old) tree source_files
        → source.now ≡ pieces_met from (from + len) (pieces_of other source_files)
        → Finds files ino off (off + len) found
        → OnOk result (LeavesFiles fs.old fs.new (D.history disk.old)
        (files_cloned_from fs.old.tree.next (pieces_of other source_files) from len ino off files)
        (pieces_meeting off (off + len) (pieces_of ino files)
        + pieces_meeting from (from + len) (pieces_of other source_files))) }
    ensures sound { (events : List Event) → D.history disk.old ≡ Recorded events
        → (files source_files : List (ℕ × FileValue)) (tree : Root) (other : ℕ)
        → HoldsFiles fs.old (D.history disk.old) files → Contains (trees_of fs.old) tree
        → HasFiles fs.old (D.history disk.old) tree source_files
        → source.now ≡ pieces_met from (from + len) (pieces_of other source_files)
        → Finds files ino off (off + len) found
        → 10 * file_copies fs.old.tree.height (pieces_meeting off (off + len) (pieces_of ino files)
        + pieces_meeting from (from + len) (pieces_of other source_files))
        ≤ free_slots fs.old.land.space → BreaksNone result }
    ensures reads { (files source_files : List (ℕ × FileValue)) (tree : Root) (other : ℕ)
        → HoldsFiles fs.old (D.history disk.old) files → Contains (trees_of fs.old) tree
        → HasFiles fs.old (D.history disk.old) tree source_files
        → source.now ≡ pieces_met from (from + len) (pieces_of other source_files)
        → Finds files ino off (off + len) found
        → reads.new ≤ reads.old + 45 * (pieces_meeting off (off + len) (pieces_of ino files)
        + pieces_meeting from (from + len) (pieces_of other source_files) + 3) }
    ensures leaves { LeavesHeld fs.old fs.new (D.history disk.old) (D.history disk.new) (D.size disk.old)
        (D.size disk.new) }
    ensures stops { StopsForCause result fs.old.land.blocks.draft.sizes (D.size disk.old) }
    ensures own { OnOk result (StaysOwn fs.old fs.new) }
    ensures cause { HasCause BlockFault.Disk (D.faults disk.old) (D.faults disk.new) result }
{
    let generation = fs.tree.next();
    fits(generation.value());
    let change = clone_change(alloc, generation, source, from, len, off, found)?;
    make_exchange(fs, alloc, disk, ino, &change, reads)
}

/// Cuts a file to a size in bytes, or makes it grow to it with nothing behind (truncate(2)). What was read of it
/// before are its INODE_ITEM and the pieces that meet the range from the size up to the largest one; where there is
/// no such file, nothing changes. Else as [`write`].
pub fn truncate<D: Disk, L: Ledger>(
    fs: &mut FsTree,
    alloc: Global,
    disk: &mut D,
    ino: Ino,
    size: u64,
    found: Found,
    reads: &mut Steps<L>,
) -> Result<(), BlockFault>
    requires subvolume { IsSubvolume fs.old (D.history disk.old) (D.size disk.old) }
    requires aligned { IsTrue (is_aligned size) }
    requires near { size ≤ largest_size }
    requires apart { AreApart found.met }
    ensures cut { (files : List (ℕ × FileValue)) (file : FileValue) → HoldsFiles fs.old (D.history disk.old) files
        → value_at ino files ≡ Some file → Finds files ino size largest_size found
        → OnOk result (LeavesFiles fs.old fs.new (D.history disk.old) (files_cut fs.old.tree.next ino size file files)
        (pieces_past size file.pieces)) }
    ensures sound { (events : List Event) → D.history disk.old ≡ Recorded events → (files : List (ℕ × FileValue))
        (file : FileValue) → HoldsFiles fs.old (D.history disk.old) files → value_at ino files ≡ Some file
        → Finds files ino size largest_size found
        → 10 * file_copies fs.old.tree.height (pieces_past size file.pieces) ≤ free_slots fs.old.land.space
        → BreaksNone result }
    ensures reads { (files : List (ℕ × FileValue)) (file : FileValue) → HoldsFiles fs.old (D.history disk.old) files
        → value_at ino files ≡ Some file → Finds files ino size largest_size found
        → reads.new ≤ reads.old + 45 * (pieces_past size file.pieces + 3) }
    ensures leaves { LeavesHeld fs.old fs.new (D.history disk.old) (D.history disk.new) (D.size disk.old)
        (D.size disk.new) }
    ensures stops { StopsForCause result fs.old.land.blocks.draft.sizes (D.size disk.old) }
    ensures own { OnOk result (StaysOwn fs.old fs.new) }
    ensures cause { HasCause BlockFault.Disk (D.faults disk.old) (D.faults disk.new) result }
{
    let Found { inode, met } = found;
    let Some(inode) = inode else {
        return Ok(());
    };
    let generation = fs.tree.next();
    fits(generation.value());
    let change = cut_change(generation, size, inode, met)?;
    make_exchange(fs, alloc, disk, ino, &change, reads)
}

/// Takes a file away (unlink(2)), which is there. What was read of it before are all its pieces. Else as [`write`].
pub fn unlink<D: Disk, L: Ledger>(
    fs: &mut FsTree,
    alloc: Global,
    disk: &mut D,
    ino: Ino,
    met: Pieces,
    reads: &mut Steps<L>,
) -> Result<(), BlockFault>
    requires subvolume { IsSubvolume fs.old (D.history disk.old) (D.size disk.old) }
    requires apart { AreApart met }
    ensures unlinked { (files : List (ℕ × FileValue)) (file : FileValue) → HoldsFiles fs.old (D.history disk.old) files
        → value_at ino files ≡ Some file → met ≡ pieces_met 0 largest_size file.pieces
        → OnOk result (LeavesFiles fs.old fs.new (D.history disk.old) (without_key ino files)
        (length file.pieces)) }
    ensures sound { (events : List Event) → D.history disk.old ≡ Recorded events → (files : List (ℕ × FileValue))
        (file : FileValue) → HoldsFiles fs.old (D.history disk.old) files → value_at ino files ≡ Some file
        → met ≡ pieces_met 0 largest_size file.pieces
        → 10 * file_copies fs.old.tree.height (length file.pieces) ≤ free_slots fs.old.land.space → BreaksNone result }
    ensures reads { (files : List (ℕ × FileValue)) (file : FileValue) → HoldsFiles fs.old (D.history disk.old) files
        → value_at ino files ≡ Some file → met ≡ pieces_met 0 largest_size file.pieces
        → reads.new ≤ reads.old + 45 * (length file.pieces + 3) }
    ensures leaves { LeavesHeld fs.old fs.new (D.history disk.old) (D.history disk.new) (D.size disk.old)
        (D.size disk.new) }
    ensures stops { StopsForCause result fs.old.land.blocks.draft.sizes (D.size disk.old) }
    ensures own { OnOk result (StaysOwn fs.old fs.new) }
    ensures cause { HasCause BlockFault.Disk (D.faults disk.old) (D.faults disk.new) result }
{
    fits(fs.tree.next().value());
    let change = unlink_change(met);
    make_exchange(fs, alloc, disk, ino, &change, reads)
}

/// A number has 64 bits, and so a contract knows that it is below 2^64.
fn fits(number: u64)
    ensures { number < 2 ^ 64 }
{
    let _number = number;
}
