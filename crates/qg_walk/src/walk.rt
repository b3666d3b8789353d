// The walk from a root down.
ghost use Rattle.std.specs.Prelude.{◌≡◌, ◌≤◌, ℕ, [], List, length, None, IfOk, OnOk, IfErr, IsTrue};
ghost use Rattle.qg_device.specs.Cause.{HasCause};
ghost use Rattle.qg_device.specs.History.{Event, Recorded, content};
ghost use Rattle.qg_super.specs.Places.{is_served, total_bytes};
ghost use Rattle.qg_super.specs.SuperText.{sizes_of};
ghost use Rattle.qg_image.specs.Walk.{node_failure, node_found, pointers_failure, tree_failure, walk_failure};
ghost use Rattle.qg_tree_items.specs.Said.{AreSaid};
ghost use Rattle.qg_walk.specs.Fault.{FailsAs, TellsFailure};
ghost use Rattle.qg_walk.specs.WalkKeeps.{AreHeld, AreInSlots};
ghost use Rattle.qg_walk.specs.IsWalk.{IsWalk};
ghost use Rattle.qg_walk.specs.Standing.{levels_below};
ghost use Rattle.qg_walk.specs.Added.{AreSpaced, HasAdded, below_node, below_pointers, found_by};

use crate::form::expected_below;
use crate::items::add_said;
use crate::visiting::visit;
use crate::{NodeList, OpenFault, Walked};
use qg_disk::Disk;
use qg_image::Expected;
use qg_node::{Node, Pointer};
use qg_num::Address;
use qg_super::Super;
use qg_tree_items::{PartList, TreePart};
use std::alloc::Global;

/// Reads the tree under a root: each node once, judged by all rules in their order before those below it (this
/// project's own).
///
/// `root` is an address in bytes. `nodes` keeps nothing yet, and takes in what is wanted of each node. What it finds is
/// kept in the order of the walk. Where it answers a fault, nothing is known of the tree but a failure that it tells,
/// which is the first one.
pub fn walk_tree<P: TreePart, L: PartList<P>, N: NodeList, D: Disk>(
    alloc: Global,
    disk: &mut D,
    superblock: &Super,
    expected: &Expected,
    root: Address,
    nodes: N,
) -> Result<Walked<L, N>, OpenFault>
    requires served { IsTrue (is_served (sizes_of superblock.now)) }
    requires inside { total_bytes (sizes_of superblock.now) ≤ D.size disk.old }
    requires root { (expected.now.from ≡ None) × (expected.now.to ≡ None) }
    requires none { N.keeps nodes [] }

    // Over a disk that tells what it holds.
    ensures found { (events : List Event) → D.history disk.old ≡ Recorded events
        → IfOk result (λ walked. IsWalk P.tree P.meaning N.keeps superblock.now (content events) expected.now root
        (L.list walked.parts) walked.nodes) }
    ensures unsound { (events : List Event) → D.history disk.old ≡ Recorded events
        → IfErr result (λ fault. TellsFailure fault
        (tree_failure P.tree superblock.now (content events) expected.now root)) }

    // Over any disk.
    ensures ascending { IfOk result (λ walked. AreSaid P.meaning (L.list walked.parts)) }
    ensures held { IfOk result (λ walked. AreHeld P.tree P.meaning superblock.now.generation (L.list walked.parts)) }
    ensures slots { IfOk result (λ walked. AreInSlots (sizes_of superblock.now) N.keeps walked.nodes) }
    ensures history { D.history disk.new ≡ D.history disk.old }
    ensures size { D.size disk.new ≡ D.size disk.old }
    ensures cause { HasCause OpenFault.Disk (D.faults disk.old) (D.faults disk.new) result }
{
    let mut buffer = vec![in alloc; 0; superblock.nodesize as usize]?;
    let mut walked = Walked {
        parts: L::new(alloc),
        nodes,
    };
    walk::<P, L, N, D>(
        alloc,
        disk,
        superblock,
        &mut buffer,
        &mut walked,
        expected,
        root,
    )?;
    Ok(walked)
}

// Walks from the node at an address down, and puts what it finds behind what was found before.
#[cycle(walk)]
fn walk<P: TreePart, L: PartList<P>, N: NodeList, D: Disk>(
    alloc: Global,
    disk: &mut D,
    superblock: &Super,
    buffer: &mut [u8],
    walked: &mut Walked<L, N>,
    expected: &Expected,
    address: Address,
) -> Result<(), OpenFault>
    requires served { IsTrue (is_served (sizes_of superblock.now)) }
    requires inside { total_bytes (sizes_of superblock.now) ≤ D.size disk.old }
    requires buffer { length buffer.old ≡ superblock.now.nodesize }
    ensures failure { (events : List Event) (depth : ℕ) → D.history disk.old ≡ Recorded events
        → levels_below expected.now.level ≤ depth
        → FailsAs result (walk_failure (node_failure P.tree superblock.now) (node_found superblock.now (content events))
        depth expected.now address) }
    ensures added { OnOk result (HasAdded P.tree P.meaning N.keeps superblock.now (D.history disk.old) expected.now.from
        expected.now.to
        (below_node superblock.now address) (found_by L.list walked.old) (found_by L.list walked.new)) }
    ensures history { D.history disk.new ≡ D.history disk.old }
    ensures size { D.size disk.new ≡ D.size disk.old }
    ensures cause { HasCause OpenFault.Disk (D.faults disk.old) (D.faults disk.new) result }
{
    let node = visit::<P, N, D>(
        alloc,
        disk,
        superblock,
        buffer,
        &mut walked.nodes,
        expected,
        address,
    )?;
    match node {
        Node::Leaf { items, .. } => add_said::<P, L>(
            superblock.generation,
            address,
            items.as_slice(),
            &mut walked.parts,
        ),
        Node::Inner { header, pointers } => walk_pointers::<P, L, N, D>(
            alloc,
            disk,
            superblock,
            buffer,
            walked,
            expected,
            header.level - 1,
            pointers.as_slice(),
        ),
    }
}

// Walks from the nodes of a level down that pointers lead to, one after the other. Their keys lie in the range that is
// expected of all.
#[cycle(walk)]
fn walk_pointers<P: TreePart, L: PartList<P>, N: NodeList, D: Disk>(
    alloc: Global,
    disk: &mut D,
    superblock: &Super,
    buffer: &mut [u8],
    walked: &mut Walked<L, N>,
    expected: &Expected,
    level: u8,
    pointers: &[Pointer],
) -> Result<(), OpenFault>
    requires served { IsTrue (is_served (sizes_of superblock.now)) }
    requires inside { total_bytes (sizes_of superblock.now) ≤ D.size disk.old }
    requires buffer { length buffer.old ≡ superblock.now.nodesize }
    requires spaced { AreSpaced expected.now.from expected.now.to pointers.now }
    ensures failure { (events : List Event) (depth : ℕ) → D.history disk.old ≡ Recorded events → level ≤ depth
        → FailsAs result (pointers_failure
        (walk_failure (node_failure P.tree superblock.now) (node_found superblock.now (content events)) depth)
        level expected.now.to pointers.now) }
    ensures added { OnOk result (HasAdded P.tree P.meaning N.keeps superblock.now (D.history disk.old) expected.now.from
        expected.now.to
        (below_pointers superblock.now level pointers.now) (found_by L.list walked.old) (found_by L.list walked.new)) }
    ensures history { D.history disk.new ≡ D.history disk.old }
    ensures size { D.size disk.new ≡ D.size disk.old }
    ensures cause { HasCause OpenFault.Disk (D.faults disk.old) (D.faults disk.new) result }
{
    let mut rest = pointers;
    'pointers: while let Some((pointer, others)) = rest.split_first() {
        let below = expected_below(level, expected.to, pointer, others);
        walk::<P, L, N, D>(
            alloc,
            disk,
            superblock,
            buffer,
            walked,
            &below,
            pointer.child,
        )?;
        rest = others;
    }
    Ok(())
}
