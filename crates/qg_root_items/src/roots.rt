// The items of the root tree.
ghost use Rattle.std.specs.Prelude.{◌≡◌, ◌≤◌, ◌+◌, ◌*◌, ◌++◌, ℕ, ◌∷◌, [], None, Some, All, IfOk, IfSome, OnOk, IsTrue};
ghost use Rattle.std.specs.Prelude.{length, map, nat_lt, not, ◌&&◌, ◌||◌};
ghost use Rattle.std.specs.List.{filter_map, list_all};
ghost use Rattle.qg_node.specs.Fits.{ItemFits};
ghost use Rattle.qg_node.specs.Nodes.{is_ascending, items_bytes};
ghost use Rattle.qg_items.specs.Laws.{RootFits};
ghost use Rattle.qg_image.specs.ItemMeaning.{root_part, is_subvolume_number};
ghost use Rattle.qg_image.specs.Walk.{is_item_of};
ghost use Rattle.qg_image.specs.declared.tree.TreeKind.TheVariants.{Roots};
ghost use Rattle.qg_root_items.specs.Writable.{AreWritableRoots, IsRootBy, IsWritableRoot};
ghost use Rattle.qg_root_items.specs.Written.{item_of_named, item_of_root, items_of_roots, quota_roots, roots_named};
ghost use Rattle.qg_root_items.specs.Written.{roots_beside};

use qg_items::kind::ROOT_ITEM;
use qg_items::tree::{EXTENT_TREE, QUOTA_TREE};
use qg_items::{ROOT_ITEM_BYTES, RootItem, write_root};
use qg_node::{Item, Items};
use qg_num::{NoMemory, RootId};
use std::alloc::{AllocError, Global};

/// The items of the root tree of an image with these subvolumes, ascending by number: a ROOT_ITEM for the extent tree,
/// for each of them, and for the quota tree, where there is one (on-disk format, ROOT_ITEM).
pub fn root_items(
    alloc: Global,
    extents: &RootItem,
    subvolumes: &[(RootId, RootItem)],
    quotas: &Option<RootItem>,
) -> Result<Items, NoMemory>
    requires extents { IsWritableRoot extents.now }
    requires subvolumes { AreWritableRoots subvolumes.now }
    requires quotas { IfSome quotas.now IsWritableRoot }
    ensures exact { IfOk result (λ items. items ≡ items_of_roots extents.now subvolumes.now quotas.now) }
    ensures told { IfOk result
        (λ items. filter_map root_part items ≡ roots_named extents.now subvolumes.now quotas.now) }
    ensures allowed { IfOk result (λ items. (generation : ℕ)
        → IsRootBy generation extents.now → All (λ entry. IsRootBy generation entry.1) subvolumes.now
        → IfSome quotas.now (IsRootBy generation)
        → IsTrue (list_all (is_item_of Roots generation) items)) }
    ensures ascending { IfOk result (λ items. IsTrue (is_ascending (map (λ item. item.key) items))) }
    ensures short { IfOk result (λ items. All (λ item. length item.body ≤ 1024) items) }
    ensures fit { IfOk result (λ items. All ItemFits items) }
    ensures weight { IfOk result
        (λ items. items_bytes items ≡ 464 * (length subvolumes.now + 1 + quota_roots quotas.now)) }
{
    Ok(items_of_roots(alloc, extents, subvolumes, quotas)?)
}

fn items_of_roots(
    alloc: Global,
    extents: &RootItem,
    subvolumes: &[(RootId, RootItem)],
    quotas: &Option<RootItem>,
) -> Result<Items, AllocError>
    requires { All (λ entry. IsTrue (is_subvolume_number entry.0)) subvolumes.now }
    ensures exact { IfOk result (λ items. items ≡ items_of_roots extents.now subvolumes.now quotas.now) }
    ensures fits { OnOk result (All (λ entry. RootFits entry.1) subvolumes.now) }
{
    match quotas {
        Some(quotas) => items_beside(alloc, extents, subvolumes, quotas),
        None => items_alone(alloc, extents, subvolumes),
    }
}

// Without a quota tree.
fn items_alone(
    alloc: Global,
    extents: &RootItem,
    subvolumes: &[(RootId, RootItem)],
) -> Result<Items, AllocError>
    ensures exact { IfOk result (λ items. items ≡ items_of_roots extents.now subvolumes.now None) }
    ensures fits { OnOk result (All (λ entry. RootFits entry.1) subvolumes.now) }
{
    let mut items = Items::new(alloc);
    items.push(item_of_root(alloc, EXTENT_TREE, extents)?)?;
    for subvolume in subvolumes {
        put_root(alloc, &mut items, subvolume)?;
    }
    Ok(items)
}

// Puts a subvolume's ROOT_ITEM at the end.
fn put_root(
    alloc: Global,
    items: &mut Items,
    subvolume: &(RootId, RootItem),
) -> Result<(), AllocError>
    ensures ok { OnOk result (items.new ≡ items.old ++ item_of_named subvolume.now ∷ []) }
    ensures fits { OnOk result (RootFits subvolume.now.1) }
{
    let item = item_of_root(alloc, subvolume.0.value(), &subvolume.1)?;
    items.push(item)?;
    Ok(())
}

// With the quota tree in its place.
fn items_beside(
    alloc: Global,
    extents: &RootItem,
    subvolumes: &[(RootId, RootItem)],
    quotas: &RootItem,
) -> Result<Items, AllocError>
    requires { All (λ entry. IsTrue (is_subvolume_number entry.0)) subvolumes.now }
    ensures exact { IfOk result (λ items. items ≡ items_of_roots extents.now subvolumes.now (Some quotas.now)) }
    ensures fits { OnOk result (All (λ entry. RootFits entry.1) subvolumes.now) }
{
    let mut items = Items::new(alloc);
    items.push(item_of_root(alloc, EXTENT_TREE, extents)?)?;
    let mut named = false;
    for subvolume in subvolumes {
        let before = named;
        named = is_named(before, subvolume.0);
        put_roots(
            alloc,
            &mut items,
            subvolume,
            quotas,
            stands_next(named, before),
        )?;
    }
    if !named {
        items.push(item_of_root(alloc, QUOTA_TREE, quotas)?)?;
    }
    Ok(items)
}

// Whether the quota tree is named once this subvolume is, by whether it was before.
fn is_named(before: bool, tree: RootId) -> bool
    ensures { result ≡ (before || nat_lt QUOTA_TREE tree) }
{
    before || tree.value() > QUOTA_TREE
}

// Whether it stands next.
fn stands_next(named: bool, before: bool) -> bool
    ensures { result ≡ (named && not before) }
{
    named && !before
}

// Puts a subvolume's ROOT_ITEM at the end, behind that of the quota tree where this stands next.
fn put_roots(
    alloc: Global,
    items: &mut Items,
    subvolume: &(RootId, RootItem),
    quotas: &RootItem,
    first: bool,
) -> Result<(), AllocError>
    ensures ok { OnOk result
        (items.new ≡ items.old ++ map item_of_named (roots_beside first quotas.now subvolume.now)) }
    ensures fits { OnOk result (RootFits subvolume.now.1) }
{
    if first {
        items.push(item_of_root(alloc, QUOTA_TREE, quotas)?)?;
    }
    items.push(item_of_root(alloc, subvolume.0.value(), &subvolume.1)?)?;
    Ok(())
}

// A tree's ROOT_ITEM.
fn item_of_root(alloc: Global, tree: u64, root: &RootItem) -> Result<Item, AllocError>
    ensures exact { IfOk result (λ item. item ≡ item_of_root tree root.now) }
    ensures fits { RootFits root.now }
{
    // A proof knows a number's range once it is read.
    let _generation = root.generation.value();
    let _address = root.bytenr.value();
    let _copied = root.last_snapshot.value();
    let _references = root.refs;
    let _level = root.level;
    let mut bytes = [0; ROOT_ITEM_BYTES];
    write_root(root, &mut bytes);
    Item::new(alloc, tree, ROOT_ITEM, 0, &bytes)
}
