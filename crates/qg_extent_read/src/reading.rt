// The items from one key to another, leaf by leaf.
ghost use Rattle.std.specs.Prelude.{◌≡◌, ◌+◌, ◌≤◌, List, length, IfOk, OnOk};
ghost use Rattle.qg_device.specs.Cause.{HasCause};
ghost use Rattle.qg_device.specs.History.{Event, Recorded};
ghost use Rattle.qg_node.specs.declared.item.Item.{Item as ItemValue};
ghost use Rattle.qg_blocks.specs.NodesFound.{BreaksNone};
ghost use Rattle.qg_tree_items.specs.Types.{Extents};
ghost use Rattle.qg_tree_read.specs.Reading.{items_within};
ghost use Rattle.qg_tree_read.specs.Stopping.{StopsOnWay};
ghost use Rattle.qg_tree_read.specs.Tree.{TellsTree};
ghost use Rattle.qg_tree_read.specs.Way.{FailsOnWay, HasRead, IsFurther, IsReadable};
ghost use Rattle.qg_extent_read.specs.Leaves.{HasTakenLeaf, taken_within};
ghost use Rattle.qg_extent_read.specs.Looked.{TellsRecords};

use crate::ItemReader;
use crate::descent::reach;
use crate::leaf::{leaf_items, next_within, take_within};
use qg_blocks::Blocks;
use qg_disk::Disk;
use qg_num::{BlockFault, Key, Steps};
use qg_tree_read::Tree;
use std::sync::ledger::Ledger;

/// Has a reader take the items of the extent tree from one key to another, both included, in the order of their keys.
/// No item is copied.
///
/// It reads leaf by leaf, going down from the root for each: 16 nodes at most for the first and the last leaf, and no
/// more for those between than they have items.
pub fn read_items<R: ItemReader, D: Disk, L: Ledger>(
    tree: &Tree,
    blocks: &mut Blocks,
    disk: &mut D,
    from: Key,
    to: Key,
    reader: &mut R,
    reads: &mut Steps<L>,
) -> Result<(), BlockFault>
    requires readable { IsReadable blocks.old (D.history disk.old) (D.size disk.old) }
    ensures found { (items : List ItemValue) → TellsTree Extents tree.now blocks.old.draft (D.history disk.old) items
        → OnOk result (reader.new ≡ taken_within R.after reader.old from to items) }
    ensures sound { (items : List ItemValue) → TellsTree Extents tree.now blocks.old.draft (D.history disk.old) items
        → BreaksNone result }
    ensures broken { (events : List Event) → D.history disk.old ≡ Recorded events
        → FailsOnWay Extents tree.now blocks.old.draft events result }
    ensures stops { StopsOnWay result Extents tree.now blocks.old.draft (D.size disk.old) }
    ensures readable { IsReadable blocks.new (D.history disk.new) (D.size disk.new) }
    ensures read { HasRead blocks.old blocks.new (D.history disk.old) (D.history disk.new) (D.size disk.old)
        (D.size disk.new) }
    ensures cause { HasCause BlockFault.Disk (D.faults disk.old) (D.faults disk.new) result }
    ensures rise { reads.old ≤ reads.new }
    ensures reads { (items : List ItemValue)
        → TellsRecords tree.now blocks.old.draft (D.history disk.old) items
        → reads.new ≤ reads.old + (16 + length (items_within from to items)) }
{
    let mut next = take_leaf::<R, D, L>(tree, blocks, disk, from, to, reader, reads)?;
    'leaves: while let Some(first) = next {
        next = take_leaf::<R, D, L>(tree, blocks, disk, first, to, reader, reads)?;
    }
    Ok(())
}

// Has a reader take the items from one key to another in the leaf that the first key leads to, and answers the key from
// which more may stand in the leaves behind.
fn take_leaf<R: ItemReader, D: Disk, L: Ledger>(
    tree: &Tree,
    blocks: &mut Blocks,
    disk: &mut D,
    from: Key,
    to: Key,
    reader: &mut R,
    reads: &mut Steps<L>,
) -> Result<Option<Key>, BlockFault>
    requires readable { IsReadable blocks.old (D.history disk.old) (D.size disk.old) }
    ensures found { (items : List ItemValue) → TellsTree Extents tree.now blocks.old.draft (D.history disk.old) items
        → IfOk result (λ next. HasTakenLeaf R.after tree.now blocks.old.draft (D.history disk.old) from to items
        reader.old reader.new next) }
    ensures sound { (items : List ItemValue) → TellsTree Extents tree.now blocks.old.draft (D.history disk.old) items
        → BreaksNone result }
    ensures broken { (events : List Event) → D.history disk.old ≡ Recorded events
        → FailsOnWay Extents tree.now blocks.old.draft events result }
    ensures stops { StopsOnWay result Extents tree.now blocks.old.draft (D.size disk.old) }
    ensures readable { IsReadable blocks.new (D.history disk.new) (D.size disk.new) }
    ensures read { HasRead blocks.old blocks.new (D.history disk.old) (D.history disk.new) (D.size disk.old)
        (D.size disk.new) }
    ensures cause { HasCause BlockFault.Disk (D.faults disk.old) (D.faults disk.new) result }
    ensures further { IfOk result (λ next. IsFurther from to next) }
    ensures rise { reads.old ≤ reads.new }
    ensures reads { reads.new ≤ reads.old + 8 }
{
    let way = reach::<D, L>(tree, blocks, disk, from, reads)?;
    let items = leaf_items(blocks.peek(way.address));
    take_within(items, from, to, reader)?;
    Ok(next_within(to, way.expected.to))
}
