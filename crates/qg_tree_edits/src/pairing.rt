// The neighbour that a child which is not a quarter full is joined with.
ghost use Rattle.std.specs.Prelude.{◌≡◌, ◌+◌, ◌<◌, ◌≤◌, ℕ, List, ◌++◌, Some, IfOk};
ghost use Rattle.qg_node.specs.declared.item.Item.{Item as ItemValue};
ghost use Rattle.qg_num.specs.declared.fault.BlockFault.TheVariants as block;
ghost use Rattle.qg_blocks.specs.Stopping.{StopsForCause};
ghost use Rattle.qg_space.specs.Holding.{free_slots};
ghost use Rattle.qg_node_alloc.specs.Tellings.{Telling};
ghost use Rattle.qg_node_alloc.specs.Calls.{KeepsBook, LeavesBe};
ghost use Rattle.qg_tree_edits.specs.Editing.{IsEditable, IsUnsettled, alone};
ghost use Rattle.qg_tree_edits.specs.Uniting.{IsPaired};
ghost use Rattle.qg_tree_edits.specs.Counting.{tellings_owned};
ghost use Rattle.qg_tree_edits.specs.Steps.{FailsToPair, HasPlace, OwnsNeighbour};

use crate::child::neighbour_of;
use crate::owning::own;
use qg_disk::Disk;
use qg_node_alloc::{Book, Ground};
use qg_num::{Address, BlockFault, Key, Rule, Steps};
use qg_tree_items::TreePart;
use qg_tree_read::Tree;
use std::alloc::Global;
use std::sync::ledger::Ledger;

// Two neighbours, by their addresses in bytes, and the index of the left one's pointer.
#[derive(Clone, Copy)]
pub(crate) struct Pair {
    pub front: usize,
    pub left: Address,
    pub right: Address,
}

// Owns the neighbour of the fresh child at a place of the fresh node at an address. The children are of a level, and
// `to` is the next key on the way to the node.
pub(crate) fn own_neighbour<P: TreePart, D: Disk, L: Ledger, B: Book<D, L>>(
    tree: &Tree,
    alloc: Global,
    land: &mut Ground,
    disk: &mut D,
    book: &mut B,
    at: Address,
    to: Option<Key>,
    level: u8,
    place: usize,
    child: Address,
    reads: &mut Steps<L>,
) -> Result<Pair, BlockFault>
    requires editable { IsEditable land.old (D.history disk.old) (D.size disk.old) tree.now.next }
    requires stands { B.stands book.old land.old disk.old }
    requires slots { 0 < free_slots land.old.space }
    requires place { HasPlace land.old level at place }
    ensures paired { OwnsNeighbour P.tree tree.now level at to place child land.old land.new (D.history disk.old)
        result }
    ensures told { (items : List ItemValue)
        → (un : IsUnsettled P.tree tree.now land.old (D.history disk.old) level at to place (alone child) items)
        → (before : B) (log : List Telling) → B.follows before log book.old
        → IfOk result (λ pair. (is : IsPaired P.tree tree.now land.old land.new (D.history disk.old) un.pointers
        to level place child pair)
        × B.follows before (log ++ tellings_owned is.owned.node is.beside.way.address is.now) book.new) }
    ensures fails { FailsToPair P.tree tree.now level at to place child land.old land.new (D.history disk.old)
        (D.faults disk.old) (D.faults disk.new) result }
    ensures stops { StopsForCause result land.old.blocks.draft.sizes (D.size disk.old) }
    ensures rests { LeavesBe land.old land.new (D.history disk.old) (D.history disk.new) (D.size disk.old)
        (D.size disk.new) tree.now.next }
    ensures book { KeepsBook B.stands B.settled book.old book.new land.old land.new disk.old disk.new result }
    ensures reads { reads.new + B.spent book.old ≤ reads.old + B.spent book.new + 3 }
{
    let Some(beside) = neighbour_of(land.blocks.peek(at), to, level, place) else {
        return Err(unfit(Rule::Shape, at));
    };
    let other = own::<P, D, L, B>(tree, alloc, land, disk, book, &beside.way, reads)?;
    if other == child {
        return Err(unfit(Rule::Refs, at));
    }
    if beside.front == place {
        return Ok(Pair {
            front: place,
            left: child,
            right: other,
        });
    }
    Ok(Pair {
        front: beside.front,
        left: other,
        right: child,
    })
}

// A node that does not fit what was read elsewhere.
fn unfit(rule: Rule, address: Address) -> BlockFault
    ensures { result ≡ block.Image rule address }
{
    BlockFault::Image { rule, address }
}
