// A tree is edited.
ghost use Rattle.std.specs.Prelude.{◌≡◌, ◌+◌, ◌*◌, ◌≤◌, ℕ, List, MatchResult, OnOk, IsTrue, drop, length, not};
ghost use Rattle.qg_node.specs.declared.item.Item.{Item as ItemValue};
ghost use Rattle.qg_blocks.specs.Stopping.{StopsForCause};
ghost use Rattle.qg_blocks.specs.NodesFound.{told};
ghost use Rattle.qg_node_alloc.specs.Changes.{IsOwnedBy};
ghost use Rattle.qg_node_alloc.specs.Calls.{KeepsBook, LeavesBe};
ghost use Rattle.qg_edit.specs.declared.edit.Change.TheVariants as edit_change;
ghost use Rattle.qg_edit.specs.Edits.{CanEdit, IsShort, growth_of, has_key, with_item, without_key};
ghost use Rattle.qg_tree_edits.specs.Calls.{EditsTree, FailsToEditTree, ReplacesItems};
ghost use Rattle.qg_tree_edits.specs.First.{first_leaf, least, leaves, leaves_behind};
ghost use Rattle.qg_tree_edits.specs.Rooting.{Grows, IsReady, IsRooted};

use crate::editing::edit_under;
use crate::rooting::set_root;
use qg_disk::Disk;
use qg_edit::{Change, Edit};
use qg_node::Body;
use qg_node_alloc::{Book, Ground};
use qg_num::{BlockFault, Key, Steps};
use qg_tree_items::TreePart;
use qg_tree_read::Tree;
use std::alloc::Global;
use std::sync::ledger::Ledger;

// The least key, which leads to the first leaf.
const LEAST: Key = Key {
    objectid: 0,
    kind: 0,
    offset: 0,
};

/// Puts an item in its place. Its key must not be there; the body has at most 1024 bytes.
///
/// Nodes that are fresh are edited where they lie, others are copied to free slots, from the root down, and the book is
/// told. It takes at most 2·height + 3 slots, and asks for 3·(height + 2) free ones. `P` says which tree it is. Over a
/// disk that tells, `Image` names a rule and an address only where what stands there is not what leads to it expects,
/// or not what the edit relies on, as with `refs` where the key is there; over any disk, only for a cause. After an
/// `Err` nodes, space and book are of no more use.
pub fn insert<P: TreePart, D: Disk, L: Ledger, B: Book<D, L>>(
    tree: &mut Tree,
    alloc: Global,
    land: &mut Ground,
    disk: &mut D,
    book: &mut B,
    key: Key,
    body: Body,
    reads: &mut Steps<L>,
) -> Result<(), BlockFault>
    requires ready { IsReady P.tree tree.old land.old (D.history disk.old) (D.size disk.old) × (length body ≤ 1024) }
    requires stands { B.stands book.old land.old disk.old }
    ensures inserted { (items : List ItemValue) → IsRooted P.tree tree.old land.old (D.history disk.old) items
        → IsTrue (not (has_key key items))
        → ReplacesItems B.follows P.tree tree.old tree.new land.old land.new (D.history disk.old)
        (with_item (record { key = key; body = body }) items) book.old book.new result }
    ensures fails { FailsToEditTree P.tree tree.old (record { key = key; change = edit_change.Insert body })
        land.old land.new (D.history disk.old) (D.faults disk.old) (D.faults disk.new) result }
    ensures stops { StopsForCause result land.old.blocks.draft.sizes (D.size disk.old) }
    ensures tree { MatchResult result (λ done. Grows 1 tree.old tree.new land.old land.new)
        (λ fault. tree.new ≡ tree.old) }
    ensures rests { LeavesBe land.old land.new (D.history disk.old) (D.history disk.new) (D.size disk.old)
        (D.size disk.new) tree.old.next }
    ensures book { KeepsBook B.stands B.settled book.old book.new land.old land.new disk.old disk.new result }
    ensures owners { OnOk result (IsOwnedBy tree.old.owner land.old land.new) }
    ensures reads { reads.new + B.spent book.old ≤ reads.old + B.spent book.new + 9 * (tree.old.height + 2) }
{
    let edit = Edit {
        key,
        change: Change::Insert(body),
    };
    edit_tree::<P, D, L, B>(tree, alloc, land, disk, book, edit, reads)
}

/// Gives the item with a key another body, of at most 1024 bytes. The key must be there. Else as [`insert`], also where
/// it is not.
pub fn replace<P: TreePart, D: Disk, L: Ledger, B: Book<D, L>>(
    tree: &mut Tree,
    alloc: Global,
    land: &mut Ground,
    disk: &mut D,
    book: &mut B,
    key: Key,
    body: Body,
    reads: &mut Steps<L>,
) -> Result<(), BlockFault>
    requires ready { IsReady P.tree tree.old land.old (D.history disk.old) (D.size disk.old) × (length body ≤ 1024) }
    requires stands { B.stands book.old land.old disk.old }
    ensures replaced { (items : List ItemValue) → IsRooted P.tree tree.old land.old (D.history disk.old) items
        → IsTrue (has_key key items)
        → ReplacesItems B.follows P.tree tree.old tree.new land.old land.new (D.history disk.old)
        (with_item (record { key = key; body = body }) items) book.old book.new result }
    ensures fails { FailsToEditTree P.tree tree.old (record { key = key; change = edit_change.Replace body })
        land.old land.new (D.history disk.old) (D.faults disk.old) (D.faults disk.new) result }
    ensures stops { StopsForCause result land.old.blocks.draft.sizes (D.size disk.old) }
    ensures tree { MatchResult result (λ done. Grows 1 tree.old tree.new land.old land.new)
        (λ fault. tree.new ≡ tree.old) }
    ensures rests { LeavesBe land.old land.new (D.history disk.old) (D.history disk.new) (D.size disk.old)
        (D.size disk.new) tree.old.next }
    ensures book { KeepsBook B.stands B.settled book.old book.new land.old land.new disk.old disk.new result }
    ensures owners { OnOk result (IsOwnedBy tree.old.owner land.old land.new) }
    ensures reads { reads.new + B.spent book.old ≤ reads.old + B.spent book.new + 9 * (tree.old.height + 2) }
{
    let edit = Edit {
        key,
        change: Change::Replace(body),
    };
    edit_tree::<P, D, L, B>(tree, alloc, land, disk, book, edit, reads)
}

/// Takes out the item with a key. The key must be there. The tree gets no higher. Else as [`insert`], also where the
/// key is not there.
pub fn remove<P: TreePart, D: Disk, L: Ledger, B: Book<D, L>>(
    tree: &mut Tree,
    alloc: Global,
    land: &mut Ground,
    disk: &mut D,
    book: &mut B,
    key: Key,
    reads: &mut Steps<L>,
) -> Result<(), BlockFault>
    requires ready { IsReady P.tree tree.old land.old (D.history disk.old) (D.size disk.old) }
    requires stands { B.stands book.old land.old disk.old }
    ensures removed { (items : List ItemValue) → IsRooted P.tree tree.old land.old (D.history disk.old) items
        → IsTrue (has_key key items)
        → ReplacesItems B.follows P.tree tree.old tree.new land.old land.new (D.history disk.old)
        (without_key key items) book.old book.new result }
    ensures fails { FailsToEditTree P.tree tree.old (record { key = key; change = edit_change.Remove })
        land.old land.new (D.history disk.old) (D.faults disk.old) (D.faults disk.new) result }
    ensures stops { StopsForCause result land.old.blocks.draft.sizes (D.size disk.old) }
    ensures tree { MatchResult result (λ done. Grows 0 tree.old tree.new land.old land.new)
        (λ fault. tree.new ≡ tree.old) }
    ensures rests { LeavesBe land.old land.new (D.history disk.old) (D.history disk.new) (D.size disk.old)
        (D.size disk.new) tree.old.next }
    ensures book { KeepsBook B.stands B.settled book.old book.new land.old land.new disk.old disk.new result }
    ensures owners { OnOk result (IsOwnedBy tree.old.owner land.old land.new) }
    ensures reads { reads.new + B.spent book.old ≤ reads.old + B.spent book.new + 9 * (tree.old.height + 2) }
{
    let edit = Edit {
        key,
        change: Change::Remove,
    };
    edit_tree::<P, D, L, B>(tree, alloc, land, disk, book, edit, reads)
}

/// Takes out exactly the items of the tree's first leaf; of a tree that is one leaf, all. Each other leaf keeps its
/// items. The tree gets no higher. Else as [`insert`].
pub fn drop_first_leaf<P: TreePart, D: Disk, L: Ledger, B: Book<D, L>>(
    tree: &mut Tree,
    alloc: Global,
    land: &mut Ground,
    disk: &mut D,
    book: &mut B,
    reads: &mut Steps<L>,
) -> Result<(), BlockFault>
    requires ready { IsReady P.tree tree.old land.old (D.history disk.old) (D.size disk.old) }
    requires stands { B.stands book.old land.old disk.old }
    ensures dropped { (items : List ItemValue) → IsRooted P.tree tree.old land.old (D.history disk.old) items
        → ReplacesItems B.follows P.tree tree.old tree.new land.old land.new (D.history disk.old)
        (drop (length (first_leaf (told land.old.blocks.draft (D.history disk.old)) tree.old.height tree.old.address))
        items) book.old book.new result }
    ensures leaves { (items : List ItemValue) → IsRooted P.tree tree.old land.old (D.history disk.old) items
        → OnOk result (leaves (told land.new.blocks.draft (D.history disk.old)) tree.new.height tree.new.address
        ≡ leaves_behind (leaves (told land.old.blocks.draft (D.history disk.old)) tree.old.height tree.old.address)) }
    ensures fails { FailsToEditTree P.tree tree.old (record { key = least; change = edit_change.Clear })
        land.old land.new (D.history disk.old) (D.faults disk.old) (D.faults disk.new) result }
    ensures stops { StopsForCause result land.old.blocks.draft.sizes (D.size disk.old) }
    ensures tree { MatchResult result (λ done. Grows 0 tree.old tree.new land.old land.new)
        (λ fault. tree.new ≡ tree.old) }
    ensures rests { LeavesBe land.old land.new (D.history disk.old) (D.history disk.new) (D.size disk.old)
        (D.size disk.new) tree.old.next }
    ensures book { KeepsBook B.stands B.settled book.old book.new land.old land.new disk.old disk.new result }
    ensures owners { OnOk result (IsOwnedBy tree.old.owner land.old land.new) }
    ensures reads { reads.new + B.spent book.old ≤ reads.old + B.spent book.new + 9 * (tree.old.height + 2) }
{
    let edit = Edit {
        key: LEAST,
        change: Change::Clear,
    };
    edit_tree::<P, D, L, B>(tree, alloc, land, disk, book, edit, reads)
}

// Edits the leaf that a key leads to, and gives the tree its root again.
fn edit_tree<P: TreePart, D: Disk, L: Ledger, B: Book<D, L>>(
    tree: &mut Tree,
    alloc: Global,
    land: &mut Ground,
    disk: &mut D,
    book: &mut B,
    edit: Edit,
    reads: &mut Steps<L>,
) -> Result<(), BlockFault>
    requires ready { IsReady P.tree tree.old land.old (D.history disk.old) (D.size disk.old) × IsShort edit.change }
    requires stands { B.stands book.old land.old disk.old }
    ensures edited { (items : List ItemValue) → IsRooted P.tree tree.old land.old (D.history disk.old) items
        → CanEdit edit items
        → EditsTree B.follows P.tree tree.old tree.new edit land.old land.new (D.history disk.old) items book.old
        book.new result }
    ensures fails { FailsToEditTree P.tree tree.old edit land.old land.new (D.history disk.old) (D.faults disk.old)
        (D.faults disk.new) result }
    ensures stops { StopsForCause result land.old.blocks.draft.sizes (D.size disk.old) }
    ensures tree { MatchResult result (λ done. Grows (growth_of edit.change) tree.old tree.new land.old land.new)
        (λ fault. tree.new ≡ tree.old) }
    ensures rests { LeavesBe land.old land.new (D.history disk.old) (D.history disk.new) (D.size disk.old)
        (D.size disk.new) tree.old.next }
    ensures book { KeepsBook B.stands B.settled book.old book.new land.old land.new disk.old disk.new result }
    ensures owners { OnOk result (IsOwnedBy tree.old.owner land.old land.new) }
    ensures reads { reads.new + B.spent book.old ≤ reads.old + B.spent book.new + 9 * (tree.old.height + 2) }
{
    let way = tree.way();
    let level = tree.height();
    let instead = edit_under::<P, D, L, B>(tree, alloc, land, disk, book, way, level, edit, reads)?;
    set_root::<P, D, L, B>(tree, alloc, land, disk, book, instead, reads)
}
