// What is read of a tree.
ghost use Rattle.std.specs.Prelude.{◌≡◌, ◌+◌, ◌*◌, ◌≤◌, List, length, IfOk};
ghost use Rattle.qg_device.specs.Cause.{HasCause};
ghost use Rattle.qg_device.specs.History.{Event, Recorded};
ghost use Rattle.qg_node.specs.declared.item.Item.{Item as ItemValue};
ghost use Rattle.qg_blocks.specs.NodesFound.{BreaksNone};
ghost use Rattle.qg_tree_read.specs.Reading.{body_at, items_within, last_upto};
ghost use Rattle.qg_tree_read.specs.Stopping.{StopsOnWay};
ghost use Rattle.qg_tree_read.specs.Tree.{TellsTree};
ghost use Rattle.qg_tree_read.specs.Way.{FailsOnWay, Gathers, HasRead, IsFurther, IsReadable};

use crate::Tree;
use crate::leaf::{add_within, body_of, last_of, leaf_items, next_within};
use qg_blocks::Blocks;
use qg_disk::Disk;
use qg_node::{Body, Item, Items};
use qg_num::{BlockFault, Key, Steps};
use qg_walk::tree_items::TreePart;
use std::alloc::Global;
use std::sync::ledger::Ledger;

impl Tree {
    /// The body under a key; none exactly where no item has the key. It takes at most a step for each level, and copies
    /// no node.
    ///
    /// `P` says which tree it is, and so which owners a node may have. What does not fit a tree is answered as `Image`:
    /// over any disk only at an address on the way down, where there is no node such as the way leads to expect.
    pub fn get<P: TreePart, D: Disk, L: Ledger>(
        &self,
        alloc: Global,
        blocks: &mut Blocks,
        disk: &mut D,
        key: Key,
        reads: &mut Steps<L>,
    ) -> Result<Option<Body>, BlockFault>
        requires readable { IsReadable blocks.old (D.history disk.old) (D.size disk.old) }
        ensures found { (items : List ItemValue) → TellsTree P.tree self.now blocks.old.draft (D.history disk.old) items
            → IfOk result (λ body. body ≡ body_at key items) }
        ensures sound { (items : List ItemValue) → TellsTree P.tree self.now blocks.old.draft (D.history disk.old) items
            → BreaksNone result }
        ensures broken { (events : List Event) → D.history disk.old ≡ Recorded events
            → FailsOnWay P.tree self.now blocks.old.draft events result }
        ensures stops { StopsOnWay result P.tree self.now blocks.old.draft (D.size disk.old) }
        ensures readable { IsReadable blocks.new (D.history disk.new) (D.size disk.new) }
        ensures read { HasRead blocks.old blocks.new (D.history disk.old) (D.history disk.new) (D.size disk.old)
            (D.size disk.new) }
        ensures cause { HasCause BlockFault.Disk (D.faults disk.old) (D.faults disk.new) result }
        ensures reads { reads.new ≤ reads.old + self.now.height + 1 }
    {
        let way = self.reach::<P, D, L>(blocks, disk, key, reads)?;
        let items = leaf_items(blocks.peek(way.address));
        Ok(body_of(alloc, items, key)?)
    }

    /// The last item whose key is not greater than another; none exactly where there is none. It takes at most a step
    /// for each level, and copies no node.
    pub fn last_to<P: TreePart, D: Disk, L: Ledger>(
        &self,
        alloc: Global,
        blocks: &mut Blocks,
        disk: &mut D,
        to: Key,
        reads: &mut Steps<L>,
    ) -> Result<Option<Item>, BlockFault>
        requires readable { IsReadable blocks.old (D.history disk.old) (D.size disk.old) }
        ensures found { (items : List ItemValue) → TellsTree P.tree self.now blocks.old.draft (D.history disk.old) items
            → IfOk result (λ item. item ≡ last_upto to items) }
        ensures sound { (items : List ItemValue) → TellsTree P.tree self.now blocks.old.draft (D.history disk.old) items
            → BreaksNone result }
        ensures broken { (events : List Event) → D.history disk.old ≡ Recorded events
            → FailsOnWay P.tree self.now blocks.old.draft events result }
        ensures stops { StopsOnWay result P.tree self.now blocks.old.draft (D.size disk.old) }
        ensures readable { IsReadable blocks.new (D.history disk.new) (D.size disk.new) }
        ensures read { HasRead blocks.old blocks.new (D.history disk.old) (D.history disk.new) (D.size disk.old)
            (D.size disk.new) }
        ensures cause { HasCause BlockFault.Disk (D.faults disk.old) (D.faults disk.new) result }
        ensures reads { reads.new ≤ reads.old + self.now.height + 1 }
    {
        let way = self.reach::<P, D, L>(blocks, disk, to, reads)?;
        let items = leaf_items(blocks.peek(way.address));
        Ok(last_of(alloc, items, to)?)
    }

    /// The items from one key to another, both included, in the order of their keys. It reads nodes on the way to the
    /// leaves where they stand, and no others: at most a step for each level, and again for each item. It copies no
    /// node.
    pub fn range<P: TreePart, D: Disk, L: Ledger>(
        &self,
        alloc: Global,
        blocks: &mut Blocks,
        disk: &mut D,
        from: Key,
        to: Key,
        reads: &mut Steps<L>,
    ) -> Result<Items, BlockFault>
        requires readable { IsReadable blocks.old (D.history disk.old) (D.size disk.old) }
        ensures found { (items : List ItemValue) → TellsTree P.tree self.now blocks.old.draft (D.history disk.old) items
            → IfOk result (λ found. found ≡ items_within from to items) }
        ensures sound { (items : List ItemValue) → TellsTree P.tree self.now blocks.old.draft (D.history disk.old) items
            → BreaksNone result }
        ensures broken { (events : List Event) → D.history disk.old ≡ Recorded events
            → FailsOnWay P.tree self.now blocks.old.draft events result }
        ensures stops { StopsOnWay result P.tree self.now blocks.old.draft (D.size disk.old) }
        ensures readable { IsReadable blocks.new (D.history disk.new) (D.size disk.new) }
        ensures read { HasRead blocks.old blocks.new (D.history disk.old) (D.history disk.new) (D.size disk.old)
            (D.size disk.new) }
        ensures cause { HasCause BlockFault.Disk (D.faults disk.old) (D.faults disk.new) result }
        ensures reads { (items : List ItemValue) → TellsTree P.tree self.now blocks.old.draft (D.history disk.old) items
            → reads.new ≤ reads.old + (self.now.height + 1) * (1 + length (items_within from to items)) }
    {
        let mut found = Items::new(alloc);
        let mut next = self.gather::<P, D, L>(blocks, disk, from, to, &mut found, reads)?;
        'leaves: while let Some(first) = next {
            next = self.gather::<P, D, L>(blocks, disk, first, to, &mut found, reads)?;
        }
        Ok(found)
    }

    // Puts the items from one key to another in the leaf that the first key leads to behind others, and answers the key
    // from which more may stand in the leaves behind.
    fn gather<P: TreePart, D: Disk, L: Ledger>(
        &self,
        blocks: &mut Blocks,
        disk: &mut D,
        from: Key,
        to: Key,
        found: &mut Items,
        reads: &mut Steps<L>,
    ) -> Result<Option<Key>, BlockFault>
        requires readable { IsReadable blocks.old (D.history disk.old) (D.size disk.old) }
        ensures found { (items : List ItemValue) → TellsTree P.tree self.now blocks.old.draft (D.history disk.old) items
            → IfOk result (λ next. Gathers from to items found.old found.new next) }
        ensures sound { (items : List ItemValue) → TellsTree P.tree self.now blocks.old.draft (D.history disk.old) items
            → BreaksNone result }
        ensures broken { (events : List Event) → D.history disk.old ≡ Recorded events
            → FailsOnWay P.tree self.now blocks.old.draft events result }
        ensures stops { StopsOnWay result P.tree self.now blocks.old.draft (D.size disk.old) }
        ensures readable { IsReadable blocks.new (D.history disk.new) (D.size disk.new) }
        ensures read { HasRead blocks.old blocks.new (D.history disk.old) (D.history disk.new) (D.size disk.old)
            (D.size disk.new) }
        ensures cause { HasCause BlockFault.Disk (D.faults disk.old) (D.faults disk.new) result }
        ensures further { IfOk result (λ next. IsFurther from to next) }
        ensures reads { reads.new ≤ reads.old + self.now.height + 1 }
    {
        let way = self.reach::<P, D, L>(blocks, disk, from, reads)?;
        let items = leaf_items(blocks.peek(way.address));
        add_within(items, from, to, found)?;
        Ok(next_within(to, way.expected.to))
    }
}
