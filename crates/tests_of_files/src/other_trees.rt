// What no clause says: that the call succeeds. What the trees then have was worked out by hand.
ghost use Rattle.std.specs.Prelude.{◌≡◌, [], ◌∷◌, IfOk};
ghost use Rattle.tests_of_files.specs.Examples.{fresh_quota, seventh_roots};

use qg_extents::fresh_records;
use qg_image::{Group, Quota};
use qg_items::RootItem;
use qg_node::{Item, Node};
use qg_num::{Address, Counters, Generation, GroupId, NoMemory, RootId, Sequence};
use qg_other_trees::{OtherTrees, TreeContents, lay_other_trees, stamp_after};
use qg_super::Sizes;
use qg_tree_layout::Built;
use std::alloc::Global;
use std::test::Fail;

// The root of the only subvolume, a leaf of generation 1.
const ROOT: u64 = 1056768;

// The slots beside it, which are free: the trees ask for 18.
fn slots() -> [Address; 18]
    ensures { result ≡ 1052672 ∷ 1060864 ∷ 1048576 ∷ 1064960 ∷ 1069056 ∷ 1073152 ∷ 1077248 ∷ 1081344 ∷ 1085440
        ∷ 1089536 ∷ 1093632 ∷ 1097728 ∷ 1101824 ∷ 1105920 ∷ 1110016 ∷ 1114112 ∷ 1118208 ∷ 1122304 ∷ [] }
{
    [
        Address::new(1052672),
        Address::new(1060864),
        Address::new(1048576),
        Address::new(1064960),
        Address::new(1069056),
        Address::new(1073152),
        Address::new(1077248),
        Address::new(1081344),
        Address::new(1085440),
        Address::new(1089536),
        Address::new(1093632),
        Address::new(1097728),
        Address::new(1101824),
        Address::new(1105920),
        Address::new(1110016),
        Address::new(1114112),
        Address::new(1118208),
        Address::new(1122304),
    ]
}

// Quota with the subvolume's group alone, which has no limit.
fn one_group(alloc: Global) -> Result<Quota, NoMemory>
    ensures { IfOk result (λ quota. quota ≡ fresh_quota) }
{
    let counters = Counters {
        rfer: 4096,
        excl: 4096,
    };
    let group = Group {
        counters,
        max_rfer: None,
        max_excl: None,
        stamp: Generation::new(1),
    };
    let mut groups = Sequence::new(alloc);
    groups.push((GroupId::from_number(5), group))?;
    Ok(Quota {
        groups,
        pairs: Sequence::new(alloc),
    })
}

// The sizes of the image.
fn sizes() -> Sizes
    ensures { result ≡ record { nodesize = 4096; slots = 64; sectors = 16 } }
{
    Sizes {
        nodesize: 4096,
        slots: 64,
        sectors: 16,
    }
}

// The subvolume's ROOT_ITEM, as it was made.
fn own_roots() -> [(RootId, RootItem); 1]
    ensures { result ≡ seventh_roots }
{
    let root = RootItem {
        generation: Generation::new(1),
        bytenr: Address::new(ROOT),
        last_snapshot: Generation::new(0),
        refs: 1,
        level: 0,
    };
    [(RootId::new(5), root)]
}

// The trees of the seventh generation, where the subvolume is as it was made.
fn lay_seventh(alloc: Global) -> Result<OtherTrees, NoMemory> {
    let book = fresh_records(alloc, sizes(), Address::new(ROOT))?;
    let roots = own_roots();
    let group = one_group(alloc)?;
    let quota = Some(group);
    let told = TreeContents {
        roots: &roots,
        book: &book,
        quota: &quota,
    };
    lay_other_trees(alloc, sizes(), Generation::new(7), &told, &slots())
}

// The same while quota is off.
fn lay_without_quota(alloc: Global) -> Result<OtherTrees, NoMemory> {
    let book = fresh_records(alloc, sizes(), Address::new(ROOT))?;
    let roots = own_roots();
    let quota = None;
    let told = TreeContents {
        roots: &roots,
        book: &book,
        quota: &quota,
    };
    lay_other_trees(alloc, sizes(), Generation::new(7), &told, &slots())
}

// The items of a node.
fn items_of(node: &Node) -> &[Item] {
    match node {
        Node::Leaf { items, .. } => items.as_slice(),
        Node::Inner { .. } => &[],
    }
}

// Whether a tree is one leaf of the seventh generation that lies here, has this owner, and items under these keys.
fn is_leaf(tree: &Built, at: u64, owner: u64, keys: &[(u64, u8, u64)]) -> bool {
    if tree.nodes.len() != 1 || tree.root.value() != at || tree.level != 0 {
        return false;
    }
    for node in tree.nodes.as_slice() {
        let header = node.header();
        if header.address.value() != at
            || header.generation.value() != 7
            || header.owner.value() != owner
            || !are_under(items_of(node), keys)
        {
            return false;
        }
    }
    true
}

fn are_under(items: &[Item], keys: &[(u64, u8, u64)]) -> bool {
    if items.len() != keys.len() {
        return false;
    }
    for (item, (objectid, kind, offset)) in items.iter().zip(keys.iter()) {
        let key = item.key;
        if key.objectid != *objectid || key.kind != *kind || key.offset != *offset {
            return false;
        }
    }
    true
}

#[test]
fn three_leaves_of_the_seventh_generation(rt: HostRuntime) -> Result<(), Fail> {
    let trees = lay_seventh(rt.alloc())?;
    let superblock = &trees.superblock;
    assert!(rt; superblock.generation.value() == 7);
    assert!(rt; superblock.root.value() == 1048576);
    let record = [(ROOT, 169, 0), (ROOT, 176, 5)];
    assert!(rt; is_leaf(&trees.extents, 1052672, 2, &record));
    let group = [(0, 240, 0), (0, 242, 5), (0, 244, 5)];
    match &trees.quotas {
        Some(quotas) => assert!(rt; is_leaf(quotas, 1060864, 8, &group)),
        None => assert!(rt; false),
    }
    let roots = [(2, 132, 0), (5, 132, 0), (8, 132, 0)];
    assert!(rt; is_leaf(&trees.roots, 1048576, 1, &roots));
    Ok(())
}

#[test]
fn two_leaves_while_quota_is_off(rt: HostRuntime) -> Result<(), Fail> {
    let trees = lay_without_quota(rt.alloc())?;
    let record = [(ROOT, 169, 0), (ROOT, 176, 5)];
    assert!(rt; is_leaf(&trees.extents, 1052672, 2, &record));
    assert!(rt; trees.quotas.is_none());
    let roots = [(2, 132, 0), (5, 132, 0)];
    assert!(rt; is_leaf(&trees.roots, 1060864, 1, &roots));
    Ok(())
}

#[test]
fn roots_are_told_with_their_generations(rt: HostRuntime) -> Result<(), Fail> {
    let trees = lay_seventh(rt.alloc())?;
    // Of the extent tree, the subvolume and the quota tree: the generation, and the second byte of where its root lies.
    let wanted = [(7u8, 0x10u8), (1, 0x20), (7, 0x30)];
    for node in trees.roots.nodes.as_slice() {
        for (item, (generation, place)) in items_of(node).iter().zip(wanted.iter()) {
            assert!(rt; item.body.as_slice().get(160) == Some(generation));
            assert!(rt; item.body.as_slice().get(177) == Some(place));
        }
    }
    Ok(())
}

#[test]
fn a_stamp_stays_until_counters_change(rt: HostRuntime) {
    let old = Counters {
        rfer: 8192,
        excl: 4096,
    };
    let (stamp, next) = (Generation::new(3), Generation::new(7));
    // Counters to come, and the stamp that they then have.
    let cases = [(8192, 4096, 3), (8192, 8192, 7), (4096, 4096, 7)];
    for (rfer, excl, wanted) in cases {
        let new = Counters { rfer, excl };
        assert!(rt; stamp_after(&old, &new, stamp, next).value() == wanted);
    }
}
