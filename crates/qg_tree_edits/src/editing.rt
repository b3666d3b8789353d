// An edit of what stands under a node.
ghost use Rattle.std.specs.Prelude.{◌≡◌, ◌+◌, ◌*◌, ◌<◌, ◌≤◌, ℕ, List, Some};
ghost use Rattle.qg_node.specs.declared.item.Item.{Item as ItemValue};
ghost use Rattle.qg_blocks.specs.Stopping.{StopsForCause};
ghost use Rattle.qg_edit.specs.declared.edit.Change.TheVariants as edit_change;
ghost use Rattle.qg_edit.specs.Edits.{IsShort};
ghost use Rattle.qg_tree_edits.specs.Editing.{IsPartFit};
ghost use Rattle.qg_node_alloc.specs.Calls.{KeepsBook, LeavesBe};
ghost use Rattle.qg_tree_edits.specs.Steps.{EditsItems, EditsPart, FailsToEdit, IsReadyFor};

use crate::child::{place_for, way_at};
use crate::instead::Instead;
use crate::owning::own;
use crate::rewriting::rewrite_leaf;
use crate::settling::settle;
use crate::standing::place_rest;
use qg_disk::Disk;
use qg_edit::Edit;
use qg_node_alloc::{Book, Ground};
use qg_num::{BlockFault, Steps};
use qg_tree_items::TreePart;
use qg_tree_read::{Tree, Way};
use std::alloc::Global;
use std::sync::ledger::Ledger;

// Edits the leaf that a key leads to, from the node of a level on that a way has come to. The answer is what stands in
// that node's place.
pub(crate) fn edit_under<P: TreePart, D: Disk, L: Ledger, B: Book<D, L>>(
    tree: &Tree,
    alloc: Global,
    land: &mut Ground,
    disk: &mut D,
    book: &mut B,
    way: Way,
    level: u8,
    edit: Edit,
    reads: &mut Steps<L>,
) -> Result<Instead, BlockFault>
    requires ready { IsReadyFor (3 * (level + 1)) P.tree tree.now land.old (D.history disk.old) (D.size disk.old) }
    requires stands { B.stands book.old land.old disk.old }
    requires levelled { way.expected.level ≡ Some level }
    requires short { IsShort edit.change }
    ensures part { EditsPart edit tree.now.owner level way.address land.old land.new result }
    ensures edited { (items : List ItemValue)
        → IsPartFit P.tree tree.now land.old (D.history disk.old) level way.expected way.address edit items
        → EditsItems B.follows P.tree tree.now edit level way.address land.old land.new (D.history disk.old) items
        book.old book.new result }
    ensures fails { FailsToEdit P.tree tree.now edit level way.expected way.address land.old land.new
        (D.history disk.old) (D.faults disk.old) (D.faults disk.new) result }
    ensures stops { StopsForCause result land.old.blocks.draft.sizes (D.size disk.old) }
    ensures rests { LeavesBe land.old land.new (D.history disk.old) (D.history disk.new) (D.size disk.old)
        (D.size disk.new) tree.now.next }
    ensures book { KeepsBook B.stands B.settled book.old book.new land.old land.new disk.old disk.new result }
    ensures reads { reads.new + B.spent book.old ≤ reads.old + B.spent book.new + 9 * (level + 1) }
{
    if level == 0 {
        return edit_there::<P, D, L, B>(tree, alloc, land, disk, book, &way, edit, reads);
    }
    let now = own::<P, D, L, B>(tree, alloc, land, disk, book, &way, reads)?;
    let place = place_for(land.blocks.peek(now), edit.key);
    let below = way_at(land.blocks.peek(now), way.expected.to, level - 1, place);
    let child = edit_under::<P, D, L, B>(
        tree,
        alloc,
        land,
        disk,
        book,
        below,
        level - 1,
        edit,
        reads,
    )?;
    let rest = settle::<P, D, L, B>(
        tree,
        alloc,
        land,
        disk,
        book,
        now,
        way.expected.to,
        level - 1,
        place,
        child,
        reads,
    )?;
    place_rest(tree, land, disk, book, now, level, rest, reads)
}
// Edits the leaf that a way has come to. The answer is what stands in its place.
fn edit_there<P: TreePart, D: Disk, L: Ledger, B: Book<D, L>>(
    tree: &Tree,
    alloc: Global,
    land: &mut Ground,
    disk: &mut D,
    book: &mut B,
    way: &Way,
    edit: Edit,
    reads: &mut Steps<L>,
) -> Result<Instead, BlockFault>
    requires ready { IsReadyFor 2 P.tree tree.now land.old (D.history disk.old) (D.size disk.old) }
    requires stands { B.stands book.old land.old disk.old }
    requires levelled { way.now.expected.level ≡ Some 0 }
    requires short { IsShort edit.change }
    ensures part { EditsPart edit tree.now.owner 0 way.now.address land.old land.new result }
    ensures edited { (items : List ItemValue)
        → IsPartFit P.tree tree.now land.old (D.history disk.old) 0 way.now.expected way.now.address edit items
        → EditsItems B.follows P.tree tree.now edit 0 way.now.address land.old land.new (D.history disk.old) items
        book.old book.new result }
    ensures fails { FailsToEdit P.tree tree.now edit 0 way.now.expected way.now.address land.old land.new
        (D.history disk.old) (D.faults disk.old) (D.faults disk.new) result }
    ensures stops { StopsForCause result land.old.blocks.draft.sizes (D.size disk.old) }
    ensures rests { LeavesBe land.old land.new (D.history disk.old) (D.history disk.new) (D.size disk.old)
        (D.size disk.new) tree.now.next }
    ensures book { KeepsBook B.stands B.settled book.old book.new land.old land.new disk.old disk.new result }
    ensures reads { reads.new + B.spent book.old ≤ reads.old + B.spent book.new + 9 }
{
    let now = own::<P, D, L, B>(tree, alloc, land, disk, book, way, reads)?;
    let rest = rewrite_leaf(land, now, edit)?;
    place_rest(tree, land, disk, book, now, 0, rest, reads)
}
