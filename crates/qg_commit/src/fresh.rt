// The trees of an image that is just made.
ghost use Rattle.std.specs.Prelude.{◌≡◌, ◌<◌, [], ◌∷◌, ◌++◌, IfOk, OnOk, IsTrue};
ghost use Rattle.qg_super.specs.Places.{is_served, slot_at};
ghost use Rattle.qg_super.specs.SuperText.{is_super};
ghost use Rattle.qg_extents.specs.Fresh.{fresh_table};
ghost use Rattle.qg_extents.specs.Table.{IsTable};
ghost use Rattle.qg_other_trees.specs.Trees.{quota_nodes_laid};
ghost use Rattle.qg_commit.specs.Fresh.{AreFreshTrees, fresh_nodes, fresh_quota, fresh_slots, fresh_super, own_leaf};

use qg_extents::fresh_records;
use qg_image::{Group, Quota};
use qg_items::RootItem;
use qg_items::tree::TOP_LEVEL;
use qg_node::{Header, Items, Node};
use qg_num::{Address, Counters, Generation, GroupId, NoMemory, RootId, Sequence};
use qg_other_trees::{OtherTrees, TreeContents, lay_other_trees};
use qg_super::{SLOTS_BEGIN, Sizes};
use std::alloc::Global;

// The address of one of the first slots.
#[tactic(auto, unfolding(qg_super::specs::Places::is_served))]
fn slot(sizes: Sizes, number: u64) -> Address
    requires served { IsTrue (is_served sizes) }
    requires few { number < 64 }
    ensures { result ≡ slot_at sizes number }
{
    Address::new(SLOTS_BEGIN + number * sizes.nodesize)
}

// The slots of the extent tree, the quota tree and the root tree; a layout asks for 18.
fn slots(sizes: Sizes) -> [Address; 18]
    requires { IsTrue (is_served sizes) }
    ensures { result ≡ fresh_slots sizes }
{
    [
        slot(sizes, 1),
        slot(sizes, 3),
        slot(sizes, 0),
        slot(sizes, 4),
        slot(sizes, 5),
        slot(sizes, 6),
        slot(sizes, 7),
        slot(sizes, 8),
        slot(sizes, 9),
        slot(sizes, 10),
        slot(sizes, 11),
        slot(sizes, 12),
        slot(sizes, 13),
        slot(sizes, 14),
        slot(sizes, 15),
        slot(sizes, 16),
        slot(sizes, 17),
        slot(sizes, 18),
    ]
}

/// The top-level subvolume's leaf in a fresh image, in the third slot: it is empty (this project's own).
pub fn lay_own_leaf(alloc: Global, sizes: Sizes) -> Node
    requires { IsTrue (is_served sizes) }
    ensures { result ≡ own_leaf sizes }
{
    let header = Header {
        address: slot(sizes, 2),
        generation: Generation::new(1),
        owner: RootId::new(TOP_LEVEL),
        level: 0,
    };
    Node::Leaf {
        header,
        items: Items::new(alloc),
    }
}

// Quota with the top-level subvolume's group alone, which counts its root node and has no limit.
fn fresh_quota(alloc: Global, sizes: Sizes) -> Result<Quota, NoMemory>
    ensures { IfOk result (λ quota. quota ≡ fresh_quota sizes.nodesize) }
{
    let counters = Counters {
        rfer: sizes.nodesize,
        excl: sizes.nodesize,
    };
    let group = Group {
        counters,
        max_rfer: None,
        max_excl: None,
        stamp: Generation::new(1),
    };
    let mut groups = Sequence::new(alloc);
    groups.push((GroupId::from_number(TOP_LEVEL), group))?;
    Ok(Quota {
        groups,
        pairs: Sequence::new(alloc),
    })
}

/// The other trees of a fresh image: the root tree, the extent tree, with the record of the subvolume's leaf, and the
/// quota tree, a leaf each, in the first, the second and the fourth slot (this project's own).
pub fn lay_fresh(alloc: Global, sizes: Sizes) -> Result<OtherTrees, NoMemory>
    requires { IsTrue (is_served sizes) }
    ensures trees { IfOk result (λ trees. AreFreshTrees sizes trees) }
    ensures table { OnOk result (IsTable (fresh_table sizes.nodesize (slot_at sizes 2))) }
    ensures fits { IfOk result (λ trees. IsTrue (is_super trees.superblock)) }
    ensures superblock { IfOk result (λ trees. trees.superblock ≡ fresh_super sizes (slot_at sizes 0)) }
    ensures nodes { IfOk result (λ trees.
        trees.roots.nodes ++ trees.extents.nodes ++ (own_leaf sizes ∷ []) ++ quota_nodes_laid trees.quotas
        ≡ fresh_nodes sizes) }
{
    let book = fresh_records(alloc, sizes, slot(sizes, 2))?;
    // A proof knows that a book is a table once its length is read.
    let _len = book.len();
    let root = RootItem {
        generation: Generation::new(1),
        bytenr: slot(sizes, 2),
        last_snapshot: Generation::new(0),
        refs: 1,
        level: 0,
    };
    let roots = [(RootId::new(TOP_LEVEL), root)];
    let group = fresh_quota(alloc, sizes)?;
    let quota = Some(group);
    let told = TreeContents {
        roots: &roots,
        book: &book,
        quota: &quota,
    };
    let trees = lay_other_trees(alloc, sizes, Generation::new(1), &told, &slots(sizes))?;
    Ok(trees)
}
