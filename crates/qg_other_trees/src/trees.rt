// The trees of a commit, one by one.
ghost use Rattle.std.specs.Prelude.{◌≡◌, ◌<◌, ◌≤◌, ◌+◌, ◌*◌, Some, length, All, IfOk, IfSome};
ghost use Rattle.std.specs.Option.{option_map};
ghost use Rattle.qg_node.specs.NodeText.{IsNodeSize};
ghost use Rattle.qg_node.specs.Nodes.{items_bytes};
ghost use Rattle.qg_items.specs.declared.tree.TheConstants.{EXTENT_TREE, QUOTA_TREE, ROOT_TREE};
ghost use Rattle.qg_image.specs.Need.{nodes_filled};
ghost use Rattle.qg_image.specs.declared.tree.TreeKind.TheVariants.{Extents as ExtentTree, Quotas, Roots};
ghost use Rattle.qg_root_items.specs.Writable.{IsRootBy, IsWritableRoot};
ghost use Rattle.qg_root_items.specs.Written.{quota_roots};
ghost use Rattle.qg_quota.specs.Writable.{AreWritableQuota};
ghost use Rattle.qg_extents.specs.Written.{items_of_book};
ghost use Rattle.qg_other_trees.specs.Trees.{
  AreEnough,
  ExtentsTell,
  IsQuotaTreeOf,
  IsTreeOfItems,
  QuotaTells,
  RootsTell,
  most_nodes,
  quota_nodes_laid,
  quota_tree_bytes,
  quota_trees,
  root_item_laid,
};
ghost use Rattle.qg_check.specs.Editable.{AreSubvolumes};

use qg_extents::Extents;
use qg_image::Quota;
use qg_items::RootItem;
use qg_items::tree::{EXTENT_TREE, QUOTA_TREE, ROOT_TREE};
use qg_node::Node;
use qg_num::{Address, Generation, NoMemory, RootId};
use qg_quota::quota_items;
use qg_root_items::root_items;
use qg_tree_layout::{Built, build};
use std::alloc::Global;

// The extent tree, with the items of a book.
pub(crate) fn extent_tree(
    alloc: Global,
    nodesize: u32,
    next: Generation,
    book: &Extents,
    slots: &[Address],
) -> Result<Built, NoMemory>
    requires size { IsNodeSize nodesize }
    requires known { All (λ entry. entry.1.what.generation ≤ next) book.now }
    requires slots { AreEnough (5 * nodes_filled nodesize (items_bytes (items_of_book book.now)) + 1) slots.now }
    ensures tree { IfOk result (λ built.
        IsTreeOfItems ExtentTree EXTENT_TREE nodesize next (ExtentsTell book.now) slots.now built) }
    ensures few { IfOk result
        (λ built. length built.nodes ≤ most_nodes nodesize (items_bytes (items_of_book book.now))) }
{
    let items = book.items(alloc)?;
    build(
        alloc,
        nodesize,
        RootId::new(EXTENT_TREE),
        next,
        &items,
        slots,
    )
}

// The quota tree of this quota; none while it is off.
pub(crate) fn quota_tree_of(
    alloc: Global,
    nodesize: u32,
    next: Generation,
    quota: &Option<Quota>,
    slots: &[Address],
) -> Result<Option<Built>, NoMemory>
    requires size { IsNodeSize nodesize }
    requires groups { IfSome quota.now (AreWritableQuota next) }
    requires slots { AreEnough (5 * nodes_filled nodesize (quota_tree_bytes quota.now) + quota_trees quota.now)
        slots.now }
    ensures tree { IfOk result (λ built. IsQuotaTreeOf nodesize next quota.now slots.now built) }
    ensures few { IfOk result (λ built. length (quota_nodes_laid built)
        ≤ quota_trees quota.now * most_nodes nodesize (quota_tree_bytes quota.now)) }
    ensures there { IfOk result (λ built. length (quota_nodes_laid built) ≤ length slots.now) }
{
    match quota {
        Some(quota) => {
            let built = quota_tree(alloc, nodesize, next, quota, slots)?;
            Ok(Some(built))
        }
        None => Ok(None),
    }
}

// The quota tree, with these groups, their limits and their relations.
fn quota_tree(
    alloc: Global,
    nodesize: u32,
    next: Generation,
    quota: &Quota,
    slots: &[Address],
) -> Result<Built, NoMemory>
    requires size { IsNodeSize nodesize }
    requires groups { AreWritableQuota next quota.now }
    requires slots { AreEnough (5 * nodes_filled nodesize (quota_tree_bytes (Some quota.now)) + 1) slots.now }
    ensures tree { IfOk result (λ built.
        IsTreeOfItems Quotas QUOTA_TREE nodesize next (QuotaTells next quota.now) slots.now built) }
    ensures few { IfOk result (λ built.
        length built.nodes ≤ most_nodes nodesize (quota_tree_bytes (Some quota.now))) }
{
    let items = quota_items(alloc, next, quota)?;
    build(
        alloc,
        nodesize,
        RootId::new(QUOTA_TREE),
        next,
        &items,
        slots,
    )
}

// The nodes of the quota tree; none while quota is off.
pub(crate) fn quota_nodes(quotas: &Option<Built>) -> &[Node]
    ensures { result.now ≡ quota_nodes_laid quotas.now }
{
    match quotas {
        Some(built) => built.nodes.as_slice(),
        None => &[],
    }
}

// How many they are.
pub(crate) fn quota_len(quotas: &Option<Built>) -> usize
    ensures { result ≡ length (quota_nodes_laid quotas.now) }
{
    quota_nodes(quotas).len()
}

// The root tree, with the roots of the other two, or of the extent tree alone, and the subvolumes'.
pub(crate) fn root_tree(
    alloc: Global,
    nodesize: u32,
    next: Generation,
    own: &OwnRoots,
    subvolumes: &[(RootId, RootItem)],
    slots: &[Address],
) -> Result<Built, NoMemory>
    requires size { IsNodeSize nodesize }
    requires extents { IsWritableRoot own.now.extents × IsRootBy next own.now.extents }
    requires subvolumes { AreSubvolumes next subvolumes.now }
    requires quotas { IfSome own.now.quotas (λ root. IsWritableRoot root × IsRootBy next root) }
    requires slots { AreEnough
        (5 * nodes_filled nodesize (464 * (length subvolumes.now + 1 + quota_roots own.now.quotas)) + 1) slots.now }
    ensures tree { IfOk result (λ built. IsTreeOfItems Roots ROOT_TREE nodesize next
        (RootsTell own.now.extents subvolumes.now own.now.quotas) slots.now built) }
    ensures few { IfOk result (λ built.
        length built.nodes ≤ most_nodes nodesize (464 * (length subvolumes.now + 1 + quota_roots own.now.quotas))) }
{
    let items = root_items(alloc, &own.extents, subvolumes, &own.quotas)?;
    build(alloc, nodesize, RootId::new(ROOT_TREE), next, &items, slots)
}

// The ROOT_ITEMs of the extent tree and, where there is one, the quota tree.
#[derive(Clone, Copy)]
pub(crate) struct OwnRoots {
    pub extents: RootItem,
    pub quotas: Option<RootItem>,
}

// The ROOT_ITEM of the quota tree, where there is one.
pub(crate) fn quota_root(quotas: &Option<Built>, next: Generation) -> Option<RootItem>
    requires { IfSome quotas.now (λ built. built.level ≤ 7) }
    ensures value { result ≡ option_map (λ built. root_item_laid built next) quotas.now }
    ensures writable { IfSome result (λ root. IsWritableRoot root × IsRootBy next root) }
{
    match quotas {
        Some(built) => Some(root_of(built, next)),
        None => None,
    }
}

// The ROOT_ITEM of a tree that has no snapshot.
pub(crate) fn root_of(built: &Built, next: Generation) -> RootItem
    requires level { built.now.level ≤ 7 }
    ensures value { result ≡ root_item_laid built.now next }
    ensures writable { IsWritableRoot result × IsRootBy next result }
{
    // A proof knows a number's range once it is read.
    let root = built.root.value();
    let generation = next.value();
    RootItem {
        generation: Generation::new(generation),
        bytenr: Address::new(root),
        last_snapshot: Generation::new(0),
        refs: 1,
        level: built.level,
    }
}
