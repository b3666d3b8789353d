// The way down a tree.
ghost use Rattle.std.specs.Prelude.{◌≡◌, ◌+◌, ◌≤◌, List, None, OnOk, Some, IfOk};
ghost use Rattle.qg_device.specs.Cause.{HasCause};
ghost use Rattle.qg_device.specs.History.{Event, Recorded, content};
ghost use Rattle.qg_node.specs.declared.item.Item.{Item as ItemValue};
ghost use Rattle.qg_node.specs.declared.node.Node.{Node as NodeValue};
ghost use Rattle.qg_walk.specs.Standing.{form_failure};
ghost use Rattle.qg_blocks.specs.NodesFound.{BreaksNone, found, told};
ghost use Rattle.qg_tree_read.specs.Stopping.{StopsOnWay, StopsThere};
ghost use Rattle.qg_tree_read.specs.Tree.{TellsTree, super_of};
ghost use Rattle.qg_tree_read.specs.Way.{FailsOnWay, FailsThere, HasRead, IsReadable, IsReached, IsVisited};

use crate::Tree;
use crate::way::{Way, next_way};
use qg_blocks::Blocks;
use qg_blocks::image::Failure;
use qg_disk::Disk;
use qg_num::{BlockFault, Key, Steps};
use qg_walk::form_failure;
use qg_walk::tree_items::TreePart;
use std::sync::ledger::Ledger;

impl Tree {
    /// Sees to it that the node that a way has come to is in memory, and that it is what the way leads to expect. It
    /// takes a step.
    ///
    /// Over any disk `Image` comes only at the way's address, and for just that rule there is no node such as the way
    /// leads to expect.
    pub fn visit<P: TreePart, D: Disk, L: Ledger>(
        &self,
        blocks: &mut Blocks,
        disk: &mut D,
        way: &Way,
        reads: &mut Steps<L>,
    ) -> Result<(), BlockFault>
        requires readable { IsReadable blocks.old (D.history disk.old) (D.size disk.old) }
        ensures visited { OnOk result
            (IsVisited P.tree (super_of self.now blocks.old.draft) way.now.expected blocks.old.draft
            (D.history disk.old) blocks.new way.now.address) }
        ensures sound { (node : NodeValue) → told blocks.old.draft (D.history disk.old) way.now.address ≡ Some node
            → form_failure P.tree (super_of self.now blocks.old.draft) way.now.expected way.now.address node ≡ None
            → BreaksNone result }
        ensures broken { (events : List Event) → D.history disk.old ≡ Recorded events
            → FailsThere P.tree (super_of self.now blocks.old.draft) way.now.expected way.now.address
            (found blocks.old.draft (content events) way.now.address) result }
        ensures stops { StopsThere result P.tree self.now blocks.old.draft (D.size disk.old) way.now.expected
            way.now.address }
        ensures readable { IsReadable blocks.new (D.history disk.new) (D.size disk.new) }
        ensures read { HasRead blocks.old blocks.new (D.history disk.old) (D.history disk.new) (D.size disk.old)
            (D.size disk.new) }
        ensures cause { HasCause BlockFault.Disk (D.faults disk.old) (D.faults disk.new) result }
        ensures reads { reads.new ≡ reads.old + 1 }
    {
        let address = way.address;
        blocks.load(disk, address, reads)?;
        let superblock = self.superblock(blocks);
        match form_failure::<P>(&superblock, &way.expected, address, blocks.peek(address)) {
            None => Ok(()),
            Some(Failure::Broken { rule, .. }) => Err(BlockFault::Image { rule, address }),
            Some(Failure::Differs { .. }) => unreachable!(),
        }
    }

    // The way to the leaf that a key leads to, which is then in memory.
    pub(crate) fn reach<P: TreePart, D: Disk, L: Ledger>(
        &self,
        blocks: &mut Blocks,
        disk: &mut D,
        key: Key,
        reads: &mut Steps<L>,
    ) -> Result<Way, BlockFault>
        requires readable { IsReadable blocks.old (D.history disk.old) (D.size disk.old) }
        ensures reached { IfOk result
            (λ way. IsReached P.tree self.now blocks.old.draft (D.history disk.old) key blocks.new way) }
        ensures sound { (items : List ItemValue) → TellsTree P.tree self.now blocks.old.draft (D.history disk.old) items
            → BreaksNone result }
        ensures broken { (events : List Event) → D.history disk.old ≡ Recorded events
            → FailsOnWay P.tree self.now blocks.old.draft events result }
        ensures stops { StopsOnWay result P.tree self.now blocks.old.draft (D.size disk.old) }
        ensures readable { IsReadable blocks.new (D.history disk.new) (D.size disk.new) }
        ensures read { HasRead blocks.old blocks.new (D.history disk.old) (D.history disk.new) (D.size disk.old)
            (D.size disk.new) }
        ensures cause { HasCause BlockFault.Disk (D.faults disk.old) (D.faults disk.new) result }
        ensures reads { reads.new ≤ reads.old + self.now.height + 1 }
    {
        let mut way = self.way();
        let mut level = self.height();
        'down: while level > 0 {
            self.visit::<P, D, L>(blocks, disk, &way, reads)?;
            level -= 1;
            way = next_way(blocks.peek(way.address), way.expected.to, level, key);
        }
        self.visit::<P, D, L>(blocks, disk, &way, reads)?;
        Ok(way)
    }
}
