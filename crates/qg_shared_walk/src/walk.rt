// The walk from a node down, past what is remembered.
ghost use Rattle.std.specs.Prelude.{◌≡◌, ◌≤◌, ◌*◌, ℕ, [], List, length, Ok, true, false};
ghost use Rattle.std.specs.Prelude.{IfOk, OnOk, OnErr, IsErrOf, IsTrue};
ghost use Rattle.qg_device.specs.Cause.{HasCause};
ghost use Rattle.qg_device.specs.History.{Event, Recorded, content};
ghost use Rattle.qg_node.specs.declared.node.Node.{Node as NodeValue};
ghost use Rattle.qg_super.specs.Places.{is_served, total_bytes};
ghost use Rattle.qg_super.specs.SuperText.{sizes_of};
ghost use Rattle.qg_image.specs.declared.tree.TreeKind.TheVariants.{Files};
ghost use Rattle.qg_image.specs.Walk.{node_found};
ghost use Rattle.qg_walk.specs.Added.{AreSpaced};
ghost use Rattle.qg_walk.specs.WalkKeeps.{AreInSlots};
ghost use Rattle.qg_walk.specs.Standing.{IsJudged, StandsAt, levels_below};
ghost use Rattle.qg_shared_walk.specs.Digests.{fits};
ghost use Rattle.qg_shared_walk.specs.Reading.{Refuses};
ghost use Rattle.qg_shared_walk.specs.Wells.{all_failure, below_failure};
ghost use Rattle.qg_shared_walk.specs.Memo.{IsWellBelow, Remembers, Walks, WalksBelow};

use crate::digest::{Below, Digest};
use crate::leaf::read_leaf;
use crate::memo::Memo;
use crate::unkept::Unkept;
use qg_disk::Disk;
use qg_image::{Expected, FilePart};
use qg_node::{Node, Pointer};
use qg_num::{Address, Rule};
use qg_super::Super;
use qg_tree_items::FileRow;
use qg_walk::{NodeList, OpenFault, expected_below, visit};
use std::alloc::Global;

/// Walks from the node at an address down, and reads what isn't remembered yet. Where it answers that a rule is broken,
/// one is, but not always this one.
#[cycle(walk)]
pub(crate) fn walk<N: NodeList, D: Disk>(
    alloc: Global,
    disk: &mut D,
    superblock: &Super,
    buffer: &mut [u8],
    memo: &mut Memo<N>,
    expected: &Expected,
    address: Address,
) -> Result<Digest, OpenFault>
    requires served { IsTrue (is_served (sizes_of superblock.now)) }
    requires inside { total_bytes (sizes_of superblock.now) ≤ D.size disk.old }
    requires buffer { length buffer.old ≡ superblock.now.nodesize }
    ensures failure { (events : List Event) (kept : List NodeValue) (depth : ℕ) → D.history disk.old ≡ Recorded events
        → Remembers superblock.now events N.keeps kept memo.old.digests.entries memo.old.nodes
        → levels_below expected.now.level ≤ depth
        → Refuses result (all_failure superblock.now events depth expected.now address) }
    ensures walks { (events : List Event) (kept : List NodeValue) → D.history disk.old ≡ Recorded events
        → Remembers superblock.now events N.keeps kept memo.old.digests.entries memo.old.nodes
        → IfOk result (λ digest. Walks superblock.now events N.keeps kept memo.new.digests.entries memo.new.nodes
        expected.now address digest) }
    ensures slots { AreInSlots (sizes_of superblock.now) N.keeps memo.old.nodes
        → OnOk result (AreInSlots (sizes_of superblock.now) N.keeps memo.new.nodes) }
    ensures history { D.history disk.new ≡ D.history disk.old }
    ensures size { D.size disk.new ≡ D.size disk.old }
    ensures cause { HasCause OpenFault.Disk (D.faults disk.old) (D.faults disk.new) result }
{
    if let Some(digest) = memo.at(address) {
        return fitting(&digest, expected, address);
    }
    let node = visit::<FilePart, Unkept, D>(
        alloc,
        disk,
        superblock,
        buffer,
        &mut Unkept {},
        expected,
        address,
    )?;
    let below = walk_under::<N, D>(
        alloc, disk, superblock, buffer, memo, expected, address, &node,
    )?;
    settle::<N>(superblock, memo, expected, address, &node, below)
}

// Judges the items of a leaf that lies at an address, or walks from an inner node's pointers down.
#[cycle(walk)]
fn walk_under<N: NodeList, D: Disk>(
    alloc: Global,
    disk: &mut D,
    superblock: &Super,
    buffer: &mut [u8],
    memo: &mut Memo<N>,
    expected: &Expected,
    address: Address,
    node: &Node,
) -> Result<Below, OpenFault>
    requires served { IsTrue (is_served (sizes_of superblock.now)) }
    requires inside { total_bytes (sizes_of superblock.now) ≤ D.size disk.old }
    requires buffer { length buffer.old ≡ superblock.now.nodesize }
    requires judged { IsJudged Files superblock.now expected.now address node.now }
    ensures failure { (events : List Event) (kept : List NodeValue) (depth : ℕ) → D.history disk.old ≡ Recorded events
        → node_found superblock.now (content events) address ≡ Ok node.now
        → Remembers superblock.now events N.keeps kept memo.old.digests.entries memo.old.nodes
        → levels_below expected.now.level ≤ depth
        → Refuses result (all_failure superblock.now events depth expected.now address) }
    ensures walks { (events : List Event) (kept : List NodeValue) → D.history disk.old ≡ Recorded events
        → node_found superblock.now (content events) address ≡ Ok node.now
        → Remembers superblock.now events N.keeps kept memo.old.digests.entries memo.old.nodes
        → IfOk result (λ below. IsWellBelow superblock.now events N.keeps kept memo.new.digests.entries memo.new.nodes
        expected.now address node.now below) }
    ensures slots { AreInSlots (sizes_of superblock.now) N.keeps memo.old.nodes
        → OnOk result (AreInSlots (sizes_of superblock.now) N.keeps memo.new.nodes) }
    ensures history { D.history disk.new ≡ D.history disk.old }
    ensures size { D.size disk.new ≡ D.size disk.old }
    ensures cause { HasCause OpenFault.Disk (D.faults disk.old) (D.faults disk.new) result }
{
    match node {
        Node::Leaf { items, .. } => {
            read_leaf(alloc, superblock.generation, address, items.as_slice())
        }
        Node::Inner { header, pointers } => walk_pointers::<N, D>(
            alloc,
            disk,
            superblock,
            buffer,
            memo,
            expected,
            header.level - 1,
            pointers.as_slice(),
        ),
    }
}

// Walks from the nodes of a level down that pointers lead to, one after the other. Their keys lie in the range that is
// expected of all.
#[cycle(walk)]
fn walk_pointers<N: NodeList, D: Disk>(
    alloc: Global,
    disk: &mut D,
    superblock: &Super,
    buffer: &mut [u8],
    memo: &mut Memo<N>,
    expected: &Expected,
    level: u8,
    pointers: &[Pointer],
) -> Result<Below, OpenFault>
    requires served { IsTrue (is_served (sizes_of superblock.now)) }
    requires inside { total_bytes (sizes_of superblock.now) ≤ D.size disk.old }
    requires buffer { length buffer.old ≡ superblock.now.nodesize }
    requires spaced { AreSpaced expected.now.from expected.now.to pointers.now }
    ensures failure { (events : List Event) (kept : List NodeValue) (depth : ℕ) → D.history disk.old ≡ Recorded events
        → Remembers superblock.now events N.keeps kept memo.old.digests.entries memo.old.nodes
        → level ≤ depth
        → Refuses result (below_failure superblock.now events depth level expected.now.to pointers.now) }
    ensures walks { (events : List Event) (kept : List NodeValue) → D.history disk.old ≡ Recorded events
        → Remembers superblock.now events N.keeps kept memo.old.digests.entries memo.old.nodes
        → IfOk result (λ below. WalksBelow superblock.now events N.keeps kept memo.new.digests.entries memo.new.nodes
        expected.now.to level pointers.now [] below) }
    ensures slots { AreInSlots (sizes_of superblock.now) N.keeps memo.old.nodes
        → OnOk result (AreInSlots (sizes_of superblock.now) N.keeps memo.new.nodes) }
    ensures history { D.history disk.new ≡ D.history disk.old }
    ensures size { D.size disk.new ≡ D.size disk.old }
    ensures cause { HasCause OpenFault.Disk (D.faults disk.old) (D.faults disk.new) result }
{
    let mut below = Below {
        last: None,
        row: FileRow::empty(),
    };
    let mut rest = pointers;
    'pointers: while let Some((pointer, others)) = rest.split_first() {
        let told = expected_below(level, expected.to, pointer, others);
        let digest = walk::<N, D>(alloc, disk, superblock, buffer, memo, &told, pointer.child)?;
        below = below.with(&digest);
        rest = others;
    }
    Ok(below)
}

// Remembers a node that was judged, below which all is well, by what is kept of the items below it. Had it been
// remembered meanwhile, it would lie below itself.
fn settle<N: NodeList>(
    superblock: &Super,
    memo: &mut Memo<N>,
    expected: &Expected,
    address: Address,
    node: &Node,
    below: Below,
) -> Result<Digest, OpenFault>
    requires stands { StandsAt superblock.now address node.now }
    ensures failure { (events : List Event) (kept : List NodeValue) (depth : ℕ)
        → Remembers superblock.now events N.keeps kept memo.old.digests.entries memo.old.nodes
        → levels_below expected.now.level ≤ depth
        → Refuses result (all_failure superblock.now events depth expected.now address) }
    ensures walks { (events : List Event) (kept : List NodeValue)
        → IsWellBelow superblock.now events N.keeps kept memo.old.digests.entries memo.old.nodes
        expected.now address node.now below
        → IfOk result (λ digest. Walks superblock.now events N.keeps kept memo.new.digests.entries memo.new.nodes
        expected.now address digest) }
    ensures slots { AreInSlots (sizes_of superblock.now) N.keeps memo.old.nodes
        → OnOk result (AreInSlots (sizes_of superblock.now) N.keeps memo.new.nodes) }
    ensures disk { IsErrOf result OpenFault.Disk → ⊥ }
{
    if let Some(digest) = memo.at(address) {
        return fitting(&digest, expected, address);
    }
    let digest = Digest::of(superblock.nodesize, node, below);
    memo.enter(address, node, &digest)?;
    Ok(digest)
}

// What is remembered of a node, where it fits what is expected; else a rule is broken there or below.
fn fitting(digest: &Digest, expected: &Expected, address: Address) -> Result<Digest, OpenFault>
    ensures fits { IfOk result (λ given. (given ≡ digest.now) × (fits expected.now digest.now ≡ true)) }
    ensures broken { OnErr result (fits expected.now digest.now ≡ false) }
    ensures disk { IsErrOf result OpenFault.Disk → ⊥ }
{
    if digest.fits(expected) {
        Ok(*digest)
    } else {
        Err(OpenFault::Broken {
            rule: Rule::Range,
            address,
        })
    }
}
