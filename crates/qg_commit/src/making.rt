// A fresh image.
ghost use Rattle.std.specs.Prelude.{◌≡◌, ◌≤◌, ◌↔◌, List, IfErr, OnOk, IsErrOf, false};
ghost use Rattle.qg_device.specs.Cause.{HasCause};
ghost use Rattle.qg_device.specs.History.{Event, Recorded, history_after};
ghost use Rattle.qg_super.specs.Places.{is_served, slot_at, total_bytes};
ghost use Rattle.qg_commit.specs.Fresh.{fresh_nodes, fresh_super};
ghost use Rattle.qg_commit.specs.Calls.{with_image};
ghost use Rattle.qg_commit.specs.Mkfs.{HoldsFreshImage, StopsMaking};

use crate::MkfsFault;
use crate::fresh::{lay_fresh, lay_own_leaf};
use crate::write::{write_nodes, write_superblocks};
use qg_disk::Disk;
use qg_super::{SECTOR, Sizes};
use std::alloc::Global;

/// Makes a fresh image of these sizes: generation 1, quota on, the top-level subvolume empty, its group with its counts
/// and no limit (this project's own).
pub fn mkfs<D: Disk>(alloc: Global, disk: &mut D, sizes: Sizes) -> Result<(), MkfsFault>
    // Sizes that are not served are refused before any call.
    ensures size { IsErrOf result MkfsFault.Size ↔ (is_served sizes ≡ false) }
    ensures untouched { IsErrOf result MkfsFault.Size → disk.new ≡ disk.old }

    // The calls that are made, and what then stands.
    ensures calls { OnOk result (D.history disk.new
        ≡ history_after (with_image (fresh_super sizes (slot_at sizes 0)) (fresh_nodes sizes)) (D.history disk.old)) }
    ensures fresh { (before : List Event) → D.history disk.old ≡ Recorded before
        → OnOk result (HoldsFreshImage sizes (D.history disk.new)) }
    ensures long { OnOk result (total_bytes sizes ≤ D.size disk.new) }

    // Where it is not made, some of these calls are, from the first on, and nothing else. What it needs of memory is
    // there before the first of them: over a disk that takes none, none is made where memory is refused.
    ensures front { IfErr result (λ fault. StopsMaking sizes (D.history disk.old) (D.history disk.new)) }
    ensures memory { D.takes_memory ≡ false → IsErrOf result MkfsFault.NoMemory → disk.new ≡ disk.old }
    ensures cause { HasCause MkfsFault.Disk (D.faults disk.old) (D.faults disk.new) result }
{
    if !sizes.is_served() {
        return Err(MkfsFault::Size);
    }
    let trees = lay_fresh(alloc, sizes)?;
    let own = [lay_own_leaf(alloc, sizes)];
    let mut memory = vec![in alloc; 0; sizes.nodesize as usize]?;
    let buffer = memory.as_mut_slice();
    disk.cut(0)?;
    disk.write_at(sizes.total_bytes() - SECTOR, &[0; SECTOR as usize])?;
    write_nodes(disk, trees.roots.nodes.as_slice(), buffer)?;
    write_nodes(disk, trees.extents.nodes.as_slice(), buffer)?;
    write_nodes(disk, &own, buffer)?;
    write_nodes(disk, trees.quota_nodes(), buffer)?;
    write_superblocks(disk, &trees.superblock)?;
    Ok(())
}
