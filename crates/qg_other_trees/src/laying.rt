// The root, extent and quota trees of a commit together.
ghost use Rattle.std.specs.Prelude.{◌≡◌, ◌<◌, ◌≤◌, ◌-◌, ◌^◌, length, IfOk, IsTrue};
ghost use Rattle.qg_node.specs.NodeText.{IsNodeSize};
ghost use Rattle.qg_super.specs.Places.{is_served};
ghost use Rattle.qg_super.specs.SuperText.{is_super};
ghost use Rattle.qg_other_trees.specs.Trees.{AreTreesOf, CanBeLaid, most_nodes_of_trees, nodes_laid, quota_nodes_laid};
ghost use Rattle.qg_other_trees.specs.Trees.{stamp_after, superblock_laid};

use crate::trees::{
    OwnRoots, extent_tree, quota_len, quota_nodes, quota_root, quota_tree_of, root_of, root_tree,
};
use qg_extents::Extents;
use qg_image::Quota;
use qg_items::RootItem;
use qg_node::Node;
use qg_num::{Address, Counters, Generation, NoMemory, RootId};
use qg_super::{Sizes, Super};
use qg_tree_layout::Built;
use std::alloc::Global;

/// The root, extent and quota trees of a commit, laid out in free slots, and the superblock that leads to them.
#[derive(Drop)]
pub struct OtherTrees {
    /// The superblock.
    pub superblock: Super,
    /// The extent tree, in the first slots.
    pub extents: Built,
    /// The quota tree, behind it; none while quota is off.
    pub quotas: Option<Built>,
    /// The root tree, behind that.
    pub roots: Built,
}

impl OtherTrees {
    /// The nodes of the quota tree; none while quota is off.
    pub fn quota_nodes(&self) -> &[Node]
        ensures { result.now ≡ quota_nodes_laid self.now.quotas }
    {
        quota_nodes(&self.quotas)
    }

    /// How many nodes the trees have together.
    pub fn len(&self) -> usize
        requires { length (nodes_laid self.now) < 2 ^ 64 }
        ensures { result ≡ length (nodes_laid self.now) }
    {
        self.roots.nodes.len() + self.extents.nodes.len() + quota_len(&self.quotas)
    }
}

/// What these trees tell (this project's own).
#[derive(Clone, Copy)]
pub struct TreeContents<'a> {
    /// The subvolumes' ROOT_ITEMs, ascending by number: generation, address and level of each root node, as it is now.
    pub roots: &'a [(RootId, RootItem)],
    /// The references to their nodes and data extents.
    pub book: &'a Extents,
    /// The groups, ascending by number: counters, limits and stamps as they are to be stored; and their relations. None
    /// while quota is off.
    pub quota: &'a Option<Quota>,
}

/// The root, extent and quota trees of the generation `next` in an image of these sizes, and the superblock that leads
/// to them. While quota is off there is no quota tree.
///
/// The trees lie in the first of `slots`, which are addresses of free slots, in bytes: the extent tree first, then the
/// quota tree, then the root tree.
pub fn lay_other_trees(
    alloc: Global,
    sizes: Sizes,
    next: Generation,
    told: &TreeContents<'_>,
    slots: &[Address],
) -> Result<OtherTrees, NoMemory>
    requires { CanBeLaid sizes next told.now slots.now }
    ensures superblock { IfOk result (λ trees. IsTrue (is_super trees.superblock)) }
    ensures trees { IfOk result (λ trees. AreTreesOf sizes next told.now slots.now trees) }
    ensures few { IfOk result (λ trees. length (nodes_laid trees)
        ≤ most_nodes_of_trees sizes.nodesize told.now.book.now told.now.roots.now told.now.quota.now) }
{
    let nodesize = node_size(sizes);
    let extents = extent_tree(alloc, nodesize, next, told.book, slots)?;
    let (_, slots) = slots.split_at(extents.nodes.len());
    let quotas = quota_tree_of(alloc, nodesize, next, told.quota, slots)?;
    let (_, slots) = slots.split_at(quota_len(&quotas));
    let own = OwnRoots {
        extents: root_of(&extents, next),
        quotas: quota_root(&quotas, next),
    };
    let roots = root_tree(alloc, nodesize, next, &own, told.roots, slots)?;
    Ok(OtherTrees {
        superblock: superblock_of(sizes, next, roots.root),
        extents,
        quotas,
        roots,
    })
}

// The bytes of a node.
#[tactic(auto, unfolding(qg_super::specs::Places::is_served))]
fn node_size(sizes: Sizes) -> u32
    requires { IsTrue (is_served sizes) }
    ensures value { result ≡ sizes.nodesize }
    ensures size { IsNodeSize result }
{
    sizes.nodesize as u32
}

// The superblock of an image of these sizes.
fn superblock_of(sizes: Sizes, next: Generation, root: Address) -> Super
    requires served { IsTrue (is_served sizes) }
    requires some { 1 ≤ next }
    requires early { next < 2 ^ 64 - 1 }
    ensures value { result ≡ superblock_laid sizes next root }
    ensures fits { IsTrue (is_super result) }
{
    // A proof knows a number's range once it is read.
    let root = root.value();
    Super {
        generation: next,
        root: Address::new(root),
        nodesize: node_size(sizes),
        slots: sizes.slots,
        sectors: sizes.sectors,
        format: 1,
    }
}

/// The generation of the commit that last changed a group's counters, where they were `old` since `stamp` and the
/// commit of `next` has `new` (this project's own).
pub fn stamp_after(
    old: &Counters,
    new: &Counters,
    stamp: Generation,
    next: Generation,
) -> Generation
    ensures { result ≡ stamp_after old.now new.now stamp next }
{
    if old == new { stamp } else { next }
}
