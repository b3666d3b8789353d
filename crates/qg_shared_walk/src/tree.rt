// The tree of one subvolume.
ghost use Rattle.std.specs.Prelude.{◌≡◌, ◌≤◌, List, length, None, ◌*◌, OnOk, IsTrue};
ghost use Rattle.qg_device.specs.Cause.{HasCause, HasEndCause};
ghost use Rattle.qg_device.specs.History.{Event, Recorded, content};
ghost use Rattle.qg_node.specs.declared.node.Node.{Node as NodeValue};
ghost use Rattle.qg_super.specs.Places.{is_served, total_bytes};
ghost use Rattle.qg_super.specs.SuperText.{sizes_of};
ghost use Rattle.qg_image.specs.declared.tree.TreeKind.TheVariants.{Files};
ghost use Rattle.qg_image.specs.Verdict.{subvolume_failure};
ghost use Rattle.qg_image.specs.Walk.{root_told, tree_failure};
ghost use Rattle.qg_walk.specs.Fault.{FailsAs, TellsFailure};
ghost use Rattle.qg_walk.specs.WalkKeeps.{AreInSlots};
ghost use Rattle.qg_shared_walk.specs.Reading.{Denies};
ghost use Rattle.qg_shared_walk.specs.Memo.{Remembers};
ghost use Rattle.qg_shared_walk.specs.Found.{HasTree};

use crate::memo::Memo;
use crate::unkept::Unkept;
use crate::walk::walk;
use qg_disk::Disk;
use qg_image::{Expected, FilePart};
use qg_items::RootItem;
use qg_num::{Address, Rule, Sequence};
use qg_super::Super;
use qg_walk::{NodeList, OpenFault, root_told, walk_tree};
use std::alloc::Global;

/// Reads what isn't remembered yet of the tree of a subvolume, and judges all of it.
pub(crate) fn read_tree<N: NodeList, D: Disk>(
    alloc: Global,
    disk: &mut D,
    superblock: &Super,
    buffer: &mut [u8],
    memo: &mut Memo<N>,
    root: &RootItem,
) -> Result<(), OpenFault>
    requires served { IsTrue (is_served (sizes_of superblock.now)) }
    requires inside { total_bytes (sizes_of superblock.now) ≤ D.size disk.old }
    requires buffer { length buffer.old ≡ superblock.now.nodesize }
    ensures failure { (events : List Event) (kept : List NodeValue) → D.history disk.old ≡ Recorded events
        → Remembers superblock.now events N.keeps kept memo.old.digests.entries memo.old.nodes
        → FailsAs result (subvolume_failure superblock.now (content events) root.now) }
    ensures read { (events : List Event) (kept : List NodeValue) → D.history disk.old ≡ Recorded events
        → Remembers superblock.now events N.keeps kept memo.old.digests.entries memo.old.nodes
        → OnOk result (HasTree superblock.now events N.keeps kept memo.new.digests.entries memo.new.nodes root.now) }
    ensures slots { AreInSlots (sizes_of superblock.now) N.keeps memo.old.nodes
        → OnOk result (AreInSlots (sizes_of superblock.now) N.keeps memo.new.nodes) }
    ensures history { D.history disk.new ≡ D.history disk.old }
    ensures size { D.size disk.new ≡ D.size disk.old }
    ensures cause { HasCause OpenFault.Disk (D.faults disk.old) (D.faults disk.new) result }
{
    let expected = root_told(root);
    match walk::<N, D>(
        alloc,
        disk,
        superblock,
        buffer,
        memo,
        &expected,
        root.bytenr,
    ) {
        Ok(digest) => {
            if digest.below.row.are_files() {
                Ok(())
            } else {
                Err(OpenFault::Broken {
                    rule: Rule::File,
                    address: root.bytenr,
                })
            }
        }
        Err(OpenFault::Disk) => Err(OpenFault::Disk),
        Err(OpenFault::NoMemory) => Err(OpenFault::NoMemory),
        Err(fault) => Err(first_fault::<D>(alloc, disk, superblock, &expected, root.bytenr, fault)),
    }
}

// The first rule that a tree breaks, where it is known to break one: it is walked from its root. A disk that lies can
// have it keep all of them; then the fault is handed on that is known.
fn first_fault<D: Disk>(
    alloc: Global,
    disk: &mut D,
    superblock: &Super,
    expected: &Expected,
    root: Address,
    known: OpenFault,
) -> OpenFault
    requires served { IsTrue (is_served (sizes_of superblock.now)) }
    requires inside { total_bytes (sizes_of superblock.now) ≤ D.size disk.old }
    requires root { (expected.now.from ≡ None) × (expected.now.to ≡ None) }
    requires known { known ≡ OpenFault.Disk → ⊥ }
    ensures first { (events : List Event) → D.history disk.old ≡ Recorded events
        → Denies known (tree_failure Files superblock.now (content events) expected.now root)
        → TellsFailure result (tree_failure Files superblock.now (content events) expected.now root) }
    ensures history { D.history disk.new ≡ D.history disk.old }
    ensures size { D.size disk.new ≡ D.size disk.old }
    ensures cause { HasEndCause OpenFault.Disk (D.faults disk.old) (D.faults disk.new) result }
{
    match walk_plainly::<D>(alloc, disk, superblock, expected, root) {
        Ok(()) => known,
        Err(fault) => fault,
    }
}

// Walks a tree from its root, and keeps nothing of it.
fn walk_plainly<D: Disk>(
    alloc: Global,
    disk: &mut D,
    superblock: &Super,
    expected: &Expected,
    root: Address,
) -> Result<(), OpenFault>
    requires served { IsTrue (is_served (sizes_of superblock.now)) }
    requires inside { total_bytes (sizes_of superblock.now) ≤ D.size disk.old }
    requires root { (expected.now.from ≡ None) × (expected.now.to ≡ None) }
    ensures failure { (events : List Event) → D.history disk.old ≡ Recorded events
        → FailsAs result (tree_failure Files superblock.now (content events) expected.now root) }
    ensures history { D.history disk.new ≡ D.history disk.old }
    ensures size { D.size disk.new ≡ D.size disk.old }
    ensures cause { HasCause OpenFault.Disk (D.faults disk.old) (D.faults disk.new) result }
{
    let _walked = walk_tree::<FilePart, Sequence<FilePart>, Unkept, D>(
        alloc,
        disk,
        superblock,
        expected,
        root,
        Unkept {},
    )?;
    Ok(())
}
