// How many nodes a subvolume reaches.
ghost use Rattle.std.specs.Prelude.{◌≡◌, ◌+◌, ◌-◌, ◌^◌, ◌≤◌, min, List, Some, All, IfOk, IsTrue};
ghost use Rattle.qg_device.specs.Cause.{HasCause};
ghost use Rattle.qg_device.specs.History.{Event, Recorded};
ghost use Rattle.qg_node.specs.Nodes.{own_pointers};
ghost use Rattle.qg_image.specs.State.{State as MachineState, has_subvolume, next_generation};
ghost use Rattle.qg_machine.specs.Refusals.{nodes_reached};
ghost use Rattle.qg_blocks.specs.Stopping.{StopsForCause};
ghost use Rattle.qg_blocks.specs.NodesFound.{BreaksNone};
ghost use Rattle.qg_tree_read.specs.Way.{HasRead, IsReadable};
ghost use Rattle.qg_tree_edits.specs.Editing.{IsEditable};
ghost use Rattle.qg_tree_backrefs.specs.declared.tree_refs.TreeRefs.{TreeRefs as BookOfTree};
ghost use Rattle.qg_shared_trees.specs.ForestStanding.{HoldsState, tree_of};
ghost use Rattle.qg_subvolumes.specs.Counting.{LeadsToBranch, TellsNodes, node_count_below, ways_reached, ways_told};

use qg_blocks::Blocks;
use qg_disk::Disk;
use qg_image::FilePart;
use qg_node::{Node, Pointer};
use qg_node_alloc::Ground;
use qg_num::{BlockFault, Key, NoMemory, Steps};
use qg_tree_read::{Tree, Way};
use qg_walk::expected_below;
use std::alloc::Global;
use std::sync::ledger::Ledger;

/// How many nodes a subvolume's tree has, which a deletion asks before it changes anything: its need of slots is by
/// them. Each is read once.
///
/// `Image` comes where a node is not what leads to it expects.
pub fn count_nodes<D: Disk, L: Ledger>(
    alloc: Global,
    land: &mut Ground,
    disk: &mut D,
    tree: &Tree,
    reads: &mut Steps<L>,
) -> Result<u64, BlockFault>
    requires editable { IsEditable land.old (D.history disk.old) (D.size disk.old) tree.now.next }

    // Where they hold a state.
    ensures counted { (state : MachineState) (book : BookOfTree) → HoldsState land.old (D.history disk.old) book state
        → IsTrue (has_subvolume state tree.now.owner) → tree.now ≡ tree_of state tree.now.owner
        → IfOk result (λ count. count ≡ nodes_reached state tree.now.owner) }
    ensures sound { (state : MachineState) (book : BookOfTree) (events : List Event)
        → D.history disk.old ≡ Recorded events
        → HoldsState land.old (D.history disk.old) book state
        → IsTrue (has_subvolume state tree.now.owner) → tree.now ≡ tree_of state tree.now.owner → BreaksNone result }
    ensures reads { (state : MachineState) (book : BookOfTree) → HoldsState land.old (D.history disk.old) book state
        → IsTrue (has_subvolume state tree.now.owner) → tree.now ≡ tree_of state tree.now.owner
        → reads.new ≤ reads.old + nodes_reached state tree.now.owner }

    // Over any disk.
    ensures editable { IsEditable land.new (D.history disk.new) (D.size disk.new) tree.now.next }
    ensures read { HasRead land.old.blocks land.new.blocks (D.history disk.old) (D.history disk.new) (D.size disk.old)
        (D.size disk.new) }
    ensures space { land.new.space ≡ land.old.space }
    ensures stops { StopsForCause result land.old.blocks.draft.sizes (D.size disk.old) }
    ensures cause { HasCause BlockFault.Disk (D.faults disk.old) (D.faults disk.new) result }
{
    count_under::<D, L>(
        tree,
        alloc,
        &mut land.blocks,
        disk,
        &tree.way(),
        tree.height(),
        reads,
    )
}

// How many lie below the node of a level, itself included.
#[cycle(counting)]
fn count_under<D: Disk, L: Ledger>(
    tree: &Tree,
    alloc: Global,
    blocks: &mut Blocks,
    disk: &mut D,
    way: &Way,
    level: u8,
    reads: &mut Steps<L>,
) -> Result<u64, BlockFault>
    requires readable { IsReadable blocks.old (D.history disk.old) (D.size disk.old) }
    requires levelled { way.now.expected.level ≡ Some level }
    ensures counted { (state : MachineState) → TellsNodes blocks.old.draft (D.history disk.old) state
        → LeadsToBranch state level way.now
        → IfOk result (λ count. count ≡ min (node_count_below state level way.now.address) (2 ^ 64 - 1)) }
    ensures sound { (state : MachineState) → tree.now.next ≡ next_generation state
        → TellsNodes blocks.old.draft (D.history disk.old) state
        → LeadsToBranch state level way.now → BreaksNone result }
    ensures reads { (state : MachineState) → TellsNodes blocks.old.draft (D.history disk.old) state
        → LeadsToBranch state level way.now
        → reads.new ≤ reads.old + node_count_below state level way.now.address }
    ensures readable { IsReadable blocks.new (D.history disk.new) (D.size disk.new) }
    ensures read { HasRead blocks.old blocks.new (D.history disk.old) (D.history disk.new) (D.size disk.old)
        (D.size disk.new) }
    ensures stops { StopsForCause result blocks.old.draft.sizes (D.size disk.old) }
    ensures cause { HasCause BlockFault.Disk (D.faults disk.old) (D.faults disk.new) result }
{
    tree.visit::<FilePart, D, L>(blocks, disk, way, reads)?;
    let node = blocks.peek(way.address);
    let ways = ways_of(alloc, node, way.expected.to, level.saturating_sub(1))?;
    if level == 0 {
        return Ok(1);
    }
    let below = count_each::<D, L>(tree, alloc, blocks, disk, ways.as_slice(), level - 1, reads)?;
    Ok(below.saturating_add(1))
}

// How many lie below nodes of a level.
#[cycle(counting)]
fn count_each<D: Disk, L: Ledger>(
    tree: &Tree,
    alloc: Global,
    blocks: &mut Blocks,
    disk: &mut D,
    ways: &[Way],
    level: u8,
    reads: &mut Steps<L>,
) -> Result<u64, BlockFault>
    requires readable { IsReadable blocks.old (D.history disk.old) (D.size disk.old) }
    requires levelled { All (λ way. way.expected.level ≡ Some level) ways.now }
    ensures counted { (state : MachineState) → TellsNodes blocks.old.draft (D.history disk.old) state
        → All (LeadsToBranch state level) ways.now
        → IfOk result (λ count. count ≡ min (ways_reached state level ways.now) (2 ^ 64 - 1)) }
    ensures sound { (state : MachineState) → tree.now.next ≡ next_generation state
        → TellsNodes blocks.old.draft (D.history disk.old) state
        → All (LeadsToBranch state level) ways.now → BreaksNone result }
    ensures reads { (state : MachineState) → TellsNodes blocks.old.draft (D.history disk.old) state
        → All (LeadsToBranch state level) ways.now
        → reads.new ≤ reads.old + ways_reached state level ways.now }
    ensures readable { IsReadable blocks.new (D.history disk.new) (D.size disk.new) }
    ensures read { HasRead blocks.old blocks.new (D.history disk.old) (D.history disk.new) (D.size disk.old)
        (D.size disk.new) }
    ensures stops { StopsForCause result blocks.old.draft.sizes (D.size disk.old) }
    ensures cause { HasCause BlockFault.Disk (D.faults disk.old) (D.faults disk.new) result }
{
    let mut count: u64 = 0;
    let mut rest = ways;
    'ways: while let Some((way, others)) = rest.split_first() {
        let more = count_under::<D, L>(tree, alloc, blocks, disk, way, level, reads)?;
        count = count.saturating_add(more);
        rest = others;
    }
    Ok(count)
}

/// The ways to a node's children, which are of a level. `to` is the next key on the way to the node.
pub fn ways_of(alloc: Global, node: &Node, to: Option<Key>, level: u8) -> Result<Vec<Way>, NoMemory>
    ensures { IfOk result (λ ways. ways.items ≡ ways_told to level (own_pointers node.now)) }
{
    match node {
        Node::Leaf { .. } => Ok(Vec::new(alloc)),
        Node::Inner { pointers, .. } => ways_at(alloc, pointers.as_slice(), to, level),
    }
}

// The ways that pointers lead.
fn ways_at(
    alloc: Global,
    pointers: &[Pointer],
    to: Option<Key>,
    level: u8,
) -> Result<Vec<Way>, NoMemory>
    ensures { IfOk result (λ ways. ways.items ≡ ways_told to level pointers.now) }
{
    let mut ways = Vec::new(alloc);
    let mut rest = pointers;
    'pointers: while let Some((pointer, others)) = rest.split_first() {
        ways.push(Way {
            address: pointer.child,
            expected: expected_below(level, to, pointer, others),
        })?;
        rest = others;
    }
    Ok(ways)
}
