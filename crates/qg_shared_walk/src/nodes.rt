// What is gathered of the nodes of a tree.
ghost use Rattle.std.specs.Prelude.{◌≡◌, [], List, map, IfOk};
ghost use Rattle.std.specs.List.{flat_map};
ghost use Rattle.qg_node.specs.declared.node.Node.{Node as NodeValue};
ghost use Rattle.qg_image.specs.Reach.{extent_of, pieces_of};
ghost use Rattle.qg_image.specs.Verdict.{extent_set};
ghost use Rattle.qg_walk.specs.WalkKeeps.{AreAddressesOf};
ghost use Rattle.qg_shared_walk.specs.NodeFacts.{AreOfNodes, told_by, told_of};

use crate::extents::{extents_of_node, put_extents, sort, without_repeats};
use qg_backref_rule::{Owing, owings_of_node};
use qg_image::Element;
use qg_node::Node;
use qg_num::{Address, Generation, NoMemory, Sequence};
use qg_owner_rule::{Linked, linked_of};
use qg_walk::NodeList;
use std::alloc::Global;

/// What the rules on all nodes together need of a node, told as if it weren't full (this project's own).
///
/// Whether it is full stands in the extent tree. Where it is, the same is owed by shared references.
#[derive(Drop)]
pub struct NodeRead {
    /// Where it lies, its level and owner, and where its children lie.
    pub linked: Linked,
    /// Its generation.
    pub generation: Generation,
    /// What it owes where it isn't full.
    pub owings: Vec<Owing>,
    /// The data extents that its pieces name, in their order.
    pub extents: Sequence<Element>,
}

/// What the rules on all nodes together need of the nodes of subvolumes' trees, taken in as the trees are walked (this
/// project's own).
#[derive(Drop)]
pub struct NodesRead {
    alloc: Global,
    pub(crate) nodes: Vec<NodeRead>,
}

impl NodesRead {
    /// Of no node.
    pub fn new(alloc: Global) -> NodesRead
        ensures { AreOfNodes result [] }
    {
        NodesRead {
            alloc,
            nodes: Vec::new(alloc),
        }
    }

    /// Where they lie, in bytes, in the order of the walk.
    pub fn addresses(&self, alloc: Global) -> Result<Sequence<Address>, NoMemory>
        ensures { (nodes : List NodeValue) → AreOfNodes self.now nodes
            → IfOk result (λ addresses. AreAddressesOf addresses nodes) }
    {
        let mut addresses = Sequence::with_capacity(alloc, self.nodes.len())?;
        for node in self.nodes.as_slice() {
            addresses.push(node.linked.address)?;
        }
        Ok(addresses)
    }

    /// The data extents that they name, ascending by address and length, each once (on-disk format, EXTENT_DATA).
    pub fn extents(&self, alloc: Global) -> Result<Sequence<Element>, NoMemory>
        ensures { (nodes : List NodeValue) → AreOfNodes self.now nodes
            → IfOk result (λ extents. extents ≡ extent_set (flat_map (λ node. map extent_of (pieces_of node)) nodes)) }
    {
        let mut named = self.named(alloc)?;
        sort(&mut named);
        Ok(without_repeats(alloc, named.as_slice())?)
    }

    // The extents that they name, as often as they are named.
    fn named(&self, alloc: Global) -> Result<Vec<Element>, NoMemory>
        ensures { IfOk result (λ named. named.items ≡ flat_map (λ told. told.extents)
            (map told_by self.now.nodes.items)) }
    {
        let mut named = Vec::new(alloc);
        for node in self.nodes.as_slice() {
            put_extents(&mut named, node.extents.as_slice())?;
        }
        Ok(named)
    }
}

impl NodeList for NodesRead {
    ghost use Rattle.qg_shared_walk.specs.NodeFacts.{AreOfNodes};

    ghost keeps = { AreOfNodes };

    fn push(&mut self, node: &Node) -> Result<(), NoMemory> {
        let read = read_of(self.alloc, node)?;
        self.nodes.push(read)?;
        Ok(())
    }
}

// How many items or pointers a node has.
fn entries_of(node: &Node) -> usize {
    match node {
        Node::Leaf { items, .. } => items.len(),
        Node::Inner { pointers, .. } => pointers.len(),
    }
}

// What is gathered of a node.
fn read_of(alloc: Global, node: &Node) -> Result<NodeRead, NoMemory>
    ensures { IfOk result (λ read. told_by read ≡ told_of node.now) }
{
    let mut owings = Vec::with_capacity(alloc, entries_of(node))?;
    owings_of_node(node, false, &mut owings)?;
    Ok(NodeRead {
        linked: linked_of(alloc, node, false)?,
        generation: node.header().generation,
        owings,
        extents: extents_of_node(alloc, node)?,
    })
}
