// A commit.
ghost use Rattle.std.specs.Prelude.{◌≡◌, ◌⊎◌, ◌≤◌, ◌∷◌, false, List, All, IfOk, IfErr, IsErrOf, IsTrue};
ghost use Rattle.qg_device.specs.Cause.{HasCause};
ghost use Rattle.qg_device.specs.History.{Event, Recorded, Synced, history_after, content};
ghost use Rattle.qg_super.specs.Places.{is_slot, total_bytes};
ghost use Rattle.qg_image.specs.State.{State};
ghost use Rattle.qg_commit.specs.Calls.{IsReadBack, with_commit};
ghost use Rattle.qg_commit.specs.Trees.{CanBeLaid};
ghost use Rattle.qg_commit.specs.Crashing.{IsFound, LeavesTrees};
ghost use Rattle.qg_commit.specs.Writing.{AreWritable, IsLayingOf, StopsLaying, fresh_nodes, nodes_written};

use crate::other_trees::{OtherTrees, TreeContents, lay_other_trees};
use crate::write_fresh::write_all;
use qg_blocks::Blocks;
use qg_disk::{Disk, DiskFault};
use qg_num::{Address, BlockFault, Generation};
use qg_super::Sizes;
use std::alloc::Global;

/// Writes the fresh nodes of the subvolumes' trees, and the root, extent and quota trees built whole in free slots;
/// then the superblocks (this project's own).
///
/// The image has these sizes, and `next` is the generation of the commit. `slots` are addresses of free slots, in
/// bytes, of which nothing is in memory (`Blocks::forget`). Nodes in memory stay as they are: after an `Ok` it is time
/// for `Blocks::written`.
pub fn commit<D: Disk>(
    alloc: Global,
    disk: &mut D,
    blocks: &Blocks,
    sizes: Sizes,
    next: Generation,
    told: &TreeContents<'_>,
    slots: &[Address],
) -> Result<OtherTrees, BlockFault>
    requires trees { CanBeLaid sizes next told.now slots.now }
    requires fresh { AreWritable sizes blocks.now.draft }
    requires slots { All (λ slot. IsTrue (is_slot sizes slot)) slots.now }
    requires long { total_bytes sizes ≤ D.size disk.old }

    // What was laid out, and over a disk that tells what it holds exactly the calls that write it.
    ensures laid { IfOk result (λ trees. IsLayingOf sizes next told.now slots.now blocks.now.draft trees) }
    ensures calls { IfOk result (λ trees. D.history disk.new
        ≡ history_after (with_commit trees.superblock (nodes_written blocks.now.draft trees)) (D.history disk.old)) }
    ensures read { IfOk result (λ trees. All (IsReadBack sizes.nodesize) (fresh_nodes blocks.now.draft)) }

    // Where it does not end, nothing else was done than some of these calls, from the first on.
    ensures stopped { (events : List Event) → D.history disk.old ≡ Recorded events
        → IfErr result (λ fault.
        StopsLaying sizes next told.now slots.now blocks.now.draft events (D.history disk.new)) }

    // Whatever a crash leaves since it began, over a disk that had made sure of an older state: that state, or the new
    // superblock over all that the whole commit does; the latter alone once the first superblock was made sure of.
    ensures crashes { (before after : List Event) (state : State) → D.history disk.old ≡ Recorded (Synced ∷ before)
        → D.history disk.new ≡ Recorded after → IsFound state sizes next slots.now blocks.now.draft (content before)
        → (after ≡ Synced ∷ before)
        ⊎ LeavesTrees state sizes next told.now slots.now blocks.now.draft before after }

    // Over any disk. What it needs of memory is there before its first call: where memory is refused though the disk
    // takes none, that is as it was.
    ensures memory { D.takes_memory ≡ false → IsErrOf result BlockFault.NoMemory → disk.new ≡ disk.old }
    ensures no_less { D.size disk.old ≤ D.size disk.new }
    ensures no_image { IfErr result (λ fault. (fault ≡ BlockFault.Disk) ⊎ (fault ≡ BlockFault.NoMemory)) }
    ensures cause { HasCause BlockFault.Disk (D.faults disk.old) (D.faults disk.new) result }
{
    let trees = lay_other_trees(alloc, sizes, next, told, slots)?;
    let addresses = blocks.dirty()?;
    let mut buffer = vec![in alloc; 0; sizes.nodesize as usize]?;
    match write_all(disk, blocks, addresses.as_slice(), &trees, &mut buffer) {
        Ok(()) => Ok(trees),
        Err(DiskFault::Failed) => Err(BlockFault::Disk),
        Err(DiskFault::NoMemory) => Err(BlockFault::NoMemory),
    }
}
