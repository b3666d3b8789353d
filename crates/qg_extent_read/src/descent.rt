// The way down to the leaf that a key leads to.
ghost use Rattle.std.specs.Prelude.{◌≡◌, ◌+◌, ◌<◌, ◌≤◌, List, length, map, IfOk, IsTrue};
ghost use Rattle.qg_device.specs.Cause.{HasCause};
ghost use Rattle.qg_device.specs.History.{Event, Recorded};
ghost use Rattle.qg_node.specs.Nodes.{is_ascending, own_keys, own_pointers};
ghost use Rattle.qg_node.specs.declared.item.Item.{Item as ItemValue};
ghost use Rattle.qg_blocks.specs.NodesFound.{BreaksNone};
ghost use Rattle.qg_tree_items.specs.Types.{Extents};
ghost use Rattle.qg_tree_read.specs.Stopping.{StopsOnWay};
ghost use Rattle.qg_tree_read.specs.Tree.{TellsTree};
ghost use Rattle.qg_tree_read.specs.Way.{FailsOnWay, HasRead, IsReadable, LeadsFor};
ghost use Rattle.qg_extent_read.specs.Ways.{HasReached};

use qg_blocks::Blocks;
use qg_disk::Disk;
use qg_node::{Node, Pointer};
use qg_num::{BlockFault, Key, Steps};
use qg_shape::child_for;
use qg_tree_read::{Tree, Way};
use qg_walk::expected_below;
use qg_walk::tree_items::image::ExtentPart;
use std::sync::ledger::Ledger;

/// The way to the leaf of the extent tree that a key leads to, which is then in memory. It reads a node of each level,
/// of which there are eight at most.
pub(crate) fn reach<D: Disk, L: Ledger>(
    tree: &Tree,
    blocks: &mut Blocks,
    disk: &mut D,
    key: Key,
    reads: &mut Steps<L>,
) -> Result<Way, BlockFault>
    requires readable { IsReadable blocks.old (D.history disk.old) (D.size disk.old) }
    ensures reached { IfOk result
        (λ way. HasReached tree.now blocks.old.draft (D.history disk.old) key blocks.new way) }
    ensures sound { (items : List ItemValue) → TellsTree Extents tree.now blocks.old.draft (D.history disk.old) items
        → BreaksNone result }
    ensures broken { (events : List Event) → D.history disk.old ≡ Recorded events
        → FailsOnWay Extents tree.now blocks.old.draft events result }
    ensures stops { StopsOnWay result Extents tree.now blocks.old.draft (D.size disk.old) }
    ensures readable { IsReadable blocks.new (D.history disk.new) (D.size disk.new) }
    ensures read { HasRead blocks.old blocks.new (D.history disk.old) (D.history disk.new) (D.size disk.old)
        (D.size disk.new) }
    ensures cause { HasCause BlockFault.Disk (D.faults disk.old) (D.faults disk.new) result }
    ensures rise { reads.old ≤ reads.new }
    ensures reads { reads.new ≤ reads.old + 8 }
{
    let mut way = tree.way();
    let mut level = tree.height();
    'down: while level > 0 {
        tree.visit::<ExtentPart, D, L>(blocks, disk, &way, reads)?;
        level -= 1;
        way = next_way(blocks.peek(way.address), way.expected.to, level, key);
    }
    tree.visit::<ExtentPart, D, L>(blocks, disk, &way, reads)?;
    Ok(way)
}

// The child of a node that leads on to a key. The children are of a level, and `to` is the next key on the way to the
// node.
fn next_way(node: &Node, to: Option<Key>, level: u8, key: Key) -> Way
    requires some { 0 < length (own_pointers node.now) }
    requires ascending { IsTrue (is_ascending (own_keys node.now)) }
    ensures { LeadsFor (own_pointers node.now) to level key result }
{
    match node {
        Node::Inner { pointers, .. } => way_among(pointers.as_slice(), to, level, key),
        Node::Leaf { .. } => unreachable!(),
    }
}

fn way_among(pointers: &[Pointer], to: Option<Key>, level: u8, key: Key) -> Way
    requires some { 0 < length pointers.now }
    requires ascending { IsTrue (is_ascending (map (λ pointer. pointer.key) pointers.now)) }
    ensures { LeadsFor pointers.now to level key result }
{
    let place = child_for(pointers, key);
    let pointer = &pointers[place];
    let others = &pointers[place + 1..];
    Way {
        address: pointer.child,
        expected: expected_below(level, to, pointer, others),
    }
}
