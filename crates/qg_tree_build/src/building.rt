// A tree is built.
ghost use Rattle.std.specs.Prelude.{◌≡◌, ◌++◌, ◌+◌, ◌*◌, ◌≤◌, ℕ, List, IfOk, OnOk, map};
ghost use Rattle.qg_device.specs.Cause.{HasCause};
ghost use Rattle.qg_device.specs.History.{Event, History, Recorded};
ghost use Rattle.qg_blocks.specs.NodesFound.{BreaksNone};
ghost use Rattle.qg_node_alloc.specs.Changes.{IsOwnedBy};
ghost use Rattle.qg_node_alloc.specs.Tellings.{Telling};
ghost use Rattle.qg_node_alloc.specs.Tellings.Telling.{Made};
ghost use Rattle.qg_node_alloc.specs.Calls.{LeavesBe};
ghost use Rattle.qg_tree_build.specs.Building.{CanBuild, IsBuildTold, IsBuiltIn, most_nodes};

use crate::laying::lay_node;
use crate::planning::plan_nodes;
use qg_disk::Disk;
use qg_node::Items;
use qg_node_alloc::{Book, Ground};
use qg_num::{BlockFault, Generation, RootId, Steps};
use qg_tree_items::TreePart;
use qg_tree_layout::Built;
use qg_tree_read::Tree;
use std::alloc::Global;
use std::sync::ledger::Ledger;

/// Builds a tree of these items in free slots, of fresh nodes, as a commit writes it that makes the generation `next`,
/// and tells the book of each.
///
/// It takes at most 5·ceil(w/cap) + 1 slots, w being what the items take of leaves and cap what a node has for them, in
/// bytes. Nothing is read but what the book reads. `P` says which tree it is. No rule is ever answered over a disk that
/// tells; after an `Err` nodes, space and book are of no more use.
pub fn build<P: TreePart, D: Disk, L: Ledger, B: Book<D, L>>(
    alloc: Global,
    land: &mut Ground,
    disk: &mut D,
    book: &mut B,
    owner: RootId,
    next: Generation,
    items: &Items,
    reads: &mut Steps<L>,
) -> Result<Tree, BlockFault>
    requires ready { CanBuild P.tree land.old (D.history disk.old) (D.size disk.old) owner next items.now }
    requires stands { B.stands book.old land.old disk.old }
    ensures built { IfOk result (λ tree. (history : History)
        → IsBuiltIn P.tree tree land.old land.new history owner next
        (most_nodes land.old.space.sizes.nodesize items.now) items.now) }
    ensures told { (before : B) (log : List Telling) → B.follows before log book.old
        → IfOk result (λ tree. (made : List ℕ) × B.follows before (log ++ map Made made) book.new
        × ((history : History)
        → IsBuildTold tree land.old land.new history (most_nodes land.old.space.sizes.nodesize items.now) made)) }
    ensures sound { (events : List Event) → D.history disk.old ≡ Recorded events → BreaksNone result }
    ensures rests { LeavesBe land.old land.new (D.history disk.old) (D.history disk.new)
        (D.size disk.old) (D.size disk.new) next }
    ensures stands { OnOk result (B.stands book.new land.new disk.new) }
    ensures settled { B.settled book.old land.old disk.old → OnOk result (B.settled book.new land.new disk.new) }
    ensures owners { OnOk result (IsOwnedBy owner land.old land.new) }
    ensures cause { HasCause BlockFault.Disk (D.faults disk.old) (D.faults disk.new) result }
    ensures reads { reads.new + B.spent book.old ≤ reads.old + B.spent book.new
        + most_nodes land.old.space.sizes.nodesize items.now }
{
    let Built {
        mut nodes,
        root,
        level,
    } = plan_nodes(alloc, land, owner, next, items)?;
    'nodes: while !nodes.is_empty() {
        let last = nodes.len() - 1;
        let node = nodes.remove(last);
        lay_node::<D, L, B>(land, disk, book, node, reads)?;
    }
    Ok(Tree::at(root, level, owner, next))
}
