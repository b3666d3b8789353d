// A tree that is edited, with all that its calls are lent.
ghost use Rattle.std.specs.Prelude.{◌≡◌, ◌+◌, ◌*◌, ◌<◌, ◌≤◌, IsTrue};
ghost use Rattle.qg_node.specs.Nodes.{header_of};
ghost use Rattle.qg_super.specs.Places.{is_served};
ghost use Rattle.qg_blocks.specs.NodesInMemory.{most_clean, slots_of};
ghost use Rattle.qg_space.specs.Holding.{free_slots};

use crate::buildable::is_buildable;
use crate::writing::{empty_land, hold_first, lengthen, write_fresh};
use qg_disk::Disk;
use qg_image::FilePart;
use qg_node::{Body, Header, Item, Items, Node};
use qg_node_alloc::{Ground, SlotBook, make_node};
use qg_num::{Address, BlockFault, Generation, Key, RootId, Sequence, Steps};
use qg_super::Sizes;
use qg_tree_build::build;
use qg_tree_edits::{drop_first_leaf, insert, remove, replace};
use qg_tree_read::Tree;
use std::alloc::Global;
use std::marker::Model;
use std::sync::ledger::{Blank, Ledger};

/// The number of the tree, by which it makes its nodes.
const OWNER: u64 = 5;

/// The longest body of an item, in bytes.
const LONGEST_BODY: usize = 1024;

/// A tree that is edited, with all that its calls are lent: nodes and space, a disk, who is told of nodes, and a count
/// of steps. What the calls ask stands between any two of them; where slots are wanting, or a body is too long, the
/// answer is `NoMemory`.
#[derive(Drop)]
pub struct Setting<D: Disk + Drop, L: Ledger> {
    alloc: Global,
    nodesize: u32,
    slots: u64,
    tree: Tree,
    generation: u64,
    land: Ground,
    /// The disk.
    pub disk: D,
    book: SlotBook,
    reads: Steps<L>,
}

impl<D: Disk + Drop, L: Ledger> Model for Setting<D, L> {
    ghost use Rattle.std.specs.Prelude.{◌≡◌, ◌<◌, ⊤};
    ghost use Rattle.qg_blocks.specs.NodesInMemory.{slots_of};
    ghost use Rattle.qg_image.specs.declared.tree.TreeKind.TheVariants.{Files};
    ghost use Rattle.qg_tree_edits.specs.Editing.{CanMake, IsEditable};

    ghost Value = { ⊤ };

    ghost view = { λ _. tt };

    ghost invariant = { λ s. IsEditable s.land (D.history s.disk) (D.size s.disk) s.tree.next × CanMake Files s.tree
        × (s.land.blocks.draft.sizes ≡ slots_of s.nodesize s.slots) × (s.land.space.sizes ≡ slots_of s.nodesize s.slots)
        × (0 < s.generation) };
}

impl<D: Disk + Drop, L: Ledger> Setting<D, L> {
    /// A tree of one empty leaf, which is fresh, over a disk that may be empty. At most `bound` clean nodes are kept.
    pub fn new(
        alloc: Global,
        disk: D,
        nodesize: u32,
        slots: u64,
        bound: usize,
        blank: Blank,
    ) -> Result<Setting<D, L>, BlockFault>
        requires served { IsTrue (is_served (slots_of nodesize slots)) }
        requires some { 1 ≤ bound }
        requires most { bound ≤ most_clean }
        requires name { blank.name ≡ L.name }
        requires parts { blank.parts ≡ L.parts }
        requires full { 0 < blank.parts }
    {
        let mut disk = disk;
        lengthen(&mut disk)?;
        let mut land = empty_land(alloc, nodesize, slots, bound)?;
        let mut book = SlotBook::new(&land.space);
        let mut reads = Steps::<L>::new(blank);
        let node = empty_leaf(alloc);
        if !node.has_text(nodesize as usize) || land.space.free_slots() == 0 {
            return Err(BlockFault::NoMemory);
        }
        let root = make_node(&mut land, &mut disk, &mut book, node, &mut reads)?;
        Ok(Setting {
            alloc,
            nodesize,
            slots,
            tree: tree_at(root, 0, 1),
            generation: 1,
            land,
            disk,
            book,
            reads,
        })
    }

    /// A tree that is built of these items, of fresh nodes, over a disk that may be empty. At most `bound` clean nodes
    /// are kept. Where keys don't ascend, the answer is `NoMemory` too.
    pub fn built(
        alloc: Global,
        disk: D,
        nodesize: u32,
        slots: u64,
        bound: usize,
        blank: Blank,
        items: &Items,
    ) -> Result<Setting<D, L>, BlockFault>
        requires served { IsTrue (is_served (slots_of nodesize slots)) }
        requires some { 1 ≤ bound }
        requires most { bound ≤ most_clean }
        requires name { blank.name ≡ L.name }
        requires parts { blank.parts ≡ L.parts }
        requires full { 0 < blank.parts }
    {
        let mut disk = disk;
        lengthen(&mut disk)?;
        let mut land = empty_land(alloc, nodesize, slots, bound)?;
        let mut book = SlotBook::new(&land.space);
        let mut reads = Steps::<L>::new(blank);
        if !is_buildable(nodesize, items.as_slice(), land.space.free_slots()) {
            return Err(BlockFault::NoMemory);
        }
        let tree = build::<FilePart, D, L, SlotBook>(
            alloc,
            &mut land,
            &mut disk,
            &mut book,
            RootId::new(OWNER),
            Generation::new(1),
            items,
            &mut reads,
        )?;
        Ok(Setting {
            alloc,
            nodesize,
            slots,
            tree,
            generation: 1,
            land,
            disk,
            book,
            reads,
        })
    }

    /// The fresh nodes are written, and clean from then on. What was given back is free.
    pub fn commit(self) -> Result<Setting<D, L>, BlockFault> {
        let Setting {
            alloc,
            nodesize,
            slots,
            tree,
            generation,
            mut land,
            mut disk,
            book,
            reads,
        } = self;
        write_fresh(
            alloc,
            &sizes_of(nodesize, slots),
            &mut land.blocks,
            &mut disk,
        )?;
        land.space.committed();
        let generation = generation.saturating_add(1);
        Ok(Setting {
            alloc,
            nodesize,
            slots,
            tree: tree_at(tree.root(), tree.height(), generation),
            generation,
            land,
            disk,
            book,
            reads,
        })
    }

    /// The tree as a commit left it, with its root at an address and of that height, in the first so many slots. No
    /// node is in memory.
    pub fn opened_again(
        self,
        root: Address,
        height: u8,
        used: u64,
        bound: usize,
    ) -> Result<Setting<D, L>, BlockFault>
        requires some { 1 ≤ bound }
        requires most { bound ≤ most_clean }
    {
        let Setting {
            alloc,
            nodesize,
            slots,
            generation,
            disk,
            reads,
            ..
        } = self;
        let mut land = empty_land(alloc, nodesize, slots, bound)?;
        hold_first(&mut land.space, used)?;
        let book = SlotBook::new(&land.space);
        Ok(Setting {
            alloc,
            nodesize,
            slots,
            tree: tree_at(root, height, generation),
            generation,
            land,
            disk,
            book,
            reads,
        })
    }

    /// Where the root lies.
    pub fn root(&self) -> Address {
        self.tree.root()
    }

    /// The level of the root.
    pub fn height(&self) -> u8 {
        self.tree.height()
    }

    /// How many slots the tree's nodes and the last commit's take.
    pub fn used_slots(&self) -> u64 {
        self.slots.saturating_sub(self.land.space.free_slots())
    }

    /// How many nodes were copied, made or left.
    pub fn told(&self) -> u64 {
        self.book.told()
    }

    /// Where the fresh nodes lie.
    pub fn fresh(&self) -> Result<Sequence<Address>, BlockFault> {
        Ok(self.land.blocks.dirty()?)
    }

    /// The disk, and the count of steps.
    pub fn into_parts(self) -> (D, Steps<L>) {
        let Setting { disk, reads, .. } = self;
        (disk, reads)
    }

    /// `Tree::get`.
    pub fn get(&mut self, key: Key) -> Result<Option<Body>, BlockFault> {
        self.tree.get::<FilePart, D, L>(
            self.alloc,
            &mut self.land.blocks,
            &mut self.disk,
            key,
            &mut self.reads,
        )
    }

    /// `Tree::last_to`.
    pub fn last_to(&mut self, to: Key) -> Result<Option<Item>, BlockFault> {
        self.tree.last_to::<FilePart, D, L>(
            self.alloc,
            &mut self.land.blocks,
            &mut self.disk,
            to,
            &mut self.reads,
        )
    }

    /// `Tree::range`.
    pub fn range(&mut self, from: Key, to: Key) -> Result<Items, BlockFault> {
        self.tree.range::<FilePart, D, L>(
            self.alloc,
            &mut self.land.blocks,
            &mut self.disk,
            from,
            to,
            &mut self.reads,
        )
    }

    /// `insert` of the tree.
    pub fn insert(&mut self, key: Key, body: &[u8]) -> Result<(), BlockFault> {
        if body.len() > LONGEST_BODY || !has_room(&self.tree, &self.land) {
            return Err(BlockFault::NoMemory);
        }
        let body = Body::from_slice(self.alloc, body)?;
        insert::<FilePart, D, L, SlotBook>(
            &mut self.tree,
            self.alloc,
            &mut self.land,
            &mut self.disk,
            &mut self.book,
            key,
            body,
            &mut self.reads,
        )
    }

    /// `replace` of the tree.
    pub fn replace(&mut self, key: Key, body: &[u8]) -> Result<(), BlockFault> {
        if body.len() > LONGEST_BODY || !has_room(&self.tree, &self.land) {
            return Err(BlockFault::NoMemory);
        }
        let body = Body::from_slice(self.alloc, body)?;
        replace::<FilePart, D, L, SlotBook>(
            &mut self.tree,
            self.alloc,
            &mut self.land,
            &mut self.disk,
            &mut self.book,
            key,
            body,
            &mut self.reads,
        )
    }

    /// `remove` of the tree.
    pub fn remove(&mut self, key: Key) -> Result<(), BlockFault> {
        if !has_room(&self.tree, &self.land) {
            return Err(BlockFault::NoMemory);
        }
        remove::<FilePart, D, L, SlotBook>(
            &mut self.tree,
            self.alloc,
            &mut self.land,
            &mut self.disk,
            &mut self.book,
            key,
            &mut self.reads,
        )
    }

    /// `drop_first_leaf` of the tree.
    pub fn drop_first_leaf(&mut self) -> Result<(), BlockFault> {
        if !has_room(&self.tree, &self.land) {
            return Err(BlockFault::NoMemory);
        }
        drop_first_leaf::<FilePart, D, L, SlotBook>(
            &mut self.tree,
            self.alloc,
            &mut self.land,
            &mut self.disk,
            &mut self.book,
            &mut self.reads,
        )
    }
}

// Whether so many slots are free as an edit asks for.
fn has_room(tree: &Tree, land: &Ground) -> bool
    ensures { IsTrue result → 3 * (tree.now.height + 2) ≤ free_slots land.now.space }
{
    3 * (tree.height() as u64 + 2) <= land.space.free_slots()
}

fn sizes_of(nodesize: u32, slots: u64) -> Sizes
    ensures { result ≡ slots_of nodesize slots }
{
    Sizes {
        nodesize: nodesize as u64,
        slots,
        sectors: 16,
    }
}

fn tree_at(root: Address, height: u8, generation: u64) -> Tree
    ensures { result ≡ record { address = root; height = height; owner = OWNER; next = generation } }
{
    Tree::at(
        root,
        height,
        RootId::new(OWNER),
        Generation::new(generation),
    )
}

fn empty_leaf(alloc: Global) -> Node
    ensures { (header_of result).generation ≡ 1 }
{
    Node::Leaf {
        header: Header {
            address: Address::new(0),
            generation: Generation::new(1),
            owner: RootId::new(OWNER),
            level: 0,
        },
        items: Items::new(alloc),
    }
}
