// The rest of a node that was cut gets a place of its own.
ghost use Rattle.std.specs.Prelude.{◌≡◌, ◌+◌, ◌<◌, ◌≤◌, ℕ, List, ◌++◌, Option, None, Some, IfOk};
ghost use Rattle.qg_blocks.specs.Stopping.{StopsForCause};
ghost use Rattle.qg_space.specs.Holding.{free_slots};
ghost use Rattle.qg_node_alloc.specs.Tellings.{Telling};
ghost use Rattle.qg_node_alloc.specs.Calls.{FailsByDisk, KeepsBook, LeavesBe};
ghost use Rattle.qg_tree_edits.specs.Editing.{IsEditable, with_owner};
ghost use Rattle.qg_tree_edits.specs.Counting.{tellings_made};
ghost use Rattle.qg_tree_edits.specs.Steps.{HasRest, PlacesRest};

use crate::instead::Instead;
use qg_disk::Disk;
use qg_node::{Header, Node};
use qg_node_alloc::{Book, Ground, make_node};
use qg_num::{Address, BlockFault, RootId, Steps};
use qg_tree_read::Tree;
use std::sync::ledger::Ledger;

// The node, with a tree as owner.
fn owned_by(node: Node, owner: RootId) -> Node
    ensures { result ≡ with_owner owner node }
{
    match node {
        Node::Leaf { header, items } => Node::Leaf {
            header: Header { owner, ..header },
            items,
        },
        Node::Inner { header, pointers } => Node::Inner {
            header: Header { owner, ..header },
            pointers,
        },
    }
}

// Makes a node of what was cut off the one at an address, if anything was. It is the tree's, whoever owns that one.
pub(crate) fn place_rest<D: Disk, L: Ledger, B: Book<D, L>>(
    tree: &Tree,
    land: &mut Ground,
    disk: &mut D,
    book: &mut B,
    now: Address,
    level: u8,
    rest: Option<Node>,
    reads: &mut Steps<L>,
) -> Result<Instead, BlockFault>
    requires editable { IsEditable land.old (D.history disk.old) (D.size disk.old) tree.now.next }
    requires stands { B.stands book.old land.old disk.old }
    requires slots { 0 < free_slots land.old.space }
    requires rest { HasRest land.old level now tree.now.next rest }
    ensures placed { PlacesRest tree.now.owner land.old land.new level now rest result }
    ensures told { (before : B) (log : List Telling) → B.follows before log book.old
        → IfOk result (λ instead. B.follows before (log ++ tellings_made instead.more) book.new) }
    ensures fails { FailsByDisk (D.history disk.old) (D.faults disk.old) (D.faults disk.new) result }
    ensures stops { StopsForCause result land.old.blocks.draft.sizes (D.size disk.old) }
    ensures rests { LeavesBe land.old land.new (D.history disk.old) (D.history disk.new) (D.size disk.old)
        (D.size disk.new) tree.now.next }
    ensures book { KeepsBook B.stands B.settled book.old book.new land.old land.new disk.old disk.new result }
    ensures reads { reads.new + B.spent book.old ≤ reads.old + B.spent book.new + 1 }
{
    match rest {
        None => Ok(Instead { now, more: None }),
        Some(node) => {
            let more = make_node(land, disk, book, owned_by(node, tree.owner()), reads)?;
            Ok(Instead {
                now,
                more: Some(more),
            })
        }
    }
}
