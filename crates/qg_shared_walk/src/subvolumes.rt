// The trees of all subvolumes.
ghost use Rattle.std.specs.Prelude.{◌≡◌, ◌≤◌, [], List, map, IfOk, IsTrue};
ghost use Rattle.qg_device.specs.Cause.{HasCause};
ghost use Rattle.qg_device.specs.History.{Event, Recorded, content};
ghost use Rattle.qg_super.specs.Places.{is_served, total_bytes};
ghost use Rattle.qg_super.specs.SuperText.{sizes_of};
ghost use Rattle.qg_image.specs.Failure.{first_failure};
ghost use Rattle.qg_image.specs.Verdict.{subvolume_failure};
ghost use Rattle.qg_walk.specs.Fault.{FailsAs};
ghost use Rattle.qg_walk.specs.WalkKeeps.{AreInSlots};
ghost use Rattle.qg_shared_walk.specs.ReadOfTrees.{AreFound};

use crate::memo::Memo;
use crate::tree::read_tree;
use qg_disk::Disk;
use qg_items::RootItem;
use qg_num::RootId;
use qg_super::Super;
use qg_walk::{NodeList, OpenFault};
use std::alloc::Global;

/// Reads the trees with these ROOT_ITEMs: each node once, however many trees share it, judged by all rules on
/// subvolumes in their order (this project's own).
///
/// `nodes` keeps nothing yet, and takes in what is wanted of each node, behind those below it. Where it answers a
/// fault, nothing is known of the trees but a failure that it tells, which is the first one.
pub fn read_subvolumes<N: NodeList, D: Disk>(
    alloc: Global,
    disk: &mut D,
    superblock: &Super,
    roots: &[(RootId, RootItem)],
    nodes: N,
) -> Result<N, OpenFault>
    requires served { IsTrue (is_served (sizes_of superblock.now)) }
    requires inside { total_bytes (sizes_of superblock.now) ≤ D.size disk.old }
    requires none { N.keeps nodes [] }

    // Over a disk that tells what it holds.
    ensures failure { (events : List Event) → D.history disk.old ≡ Recorded events
        → FailsAs result (first_failure (map (λ entry. subvolume_failure superblock.now (content events) entry.1)
        roots.now)) }
    ensures found { (events : List Event) → D.history disk.old ≡ Recorded events
        → IfOk result (λ nodes. AreFound superblock.now (content events) roots.now N.keeps nodes) }

    // Over any disk.
    ensures slots { IfOk result (λ nodes. AreInSlots (sizes_of superblock.now) N.keeps nodes) }
    ensures history { D.history disk.new ≡ D.history disk.old }
    ensures size { D.size disk.new ≡ D.size disk.old }
    ensures cause { HasCause OpenFault.Disk (D.faults disk.old) (D.faults disk.new) result }
{
    let mut buffer = vec![in alloc; 0; superblock.nodesize as usize]?;
    let mut memo = Memo::new(alloc, nodes);
    'roots: for entry in roots {
        read_tree::<N, D>(alloc, disk, superblock, &mut buffer, &mut memo, &entry.1)?;
    }
    Ok(memo.nodes)
}
