// A node put into the slot that it names.
ghost use Rattle.std.specs.Prelude.{◌≡◌, ◌+◌, ◌≤◌, List, [], ◌∷◌, ◌++◌, OnErr, OnOk, IsTrue};
ghost use Rattle.qg_device.specs.History.{History};
ghost use Rattle.qg_node.specs.Nodes.{header_of};
ghost use Rattle.qg_blocks.specs.NodesFound.{IsBacked};
ghost use Rattle.qg_space.specs.Holding.{is_free_slot};
ghost use Rattle.qg_node_alloc.specs.Calls.{FailsByDisk, KeepsBook, LeavesBe};
ghost use Rattle.qg_node_alloc.specs.Changes.{Makes, Takes};
ghost use Rattle.qg_node_alloc.specs.Tellings.{Spares, Telling};
ghost use Rattle.qg_node_alloc.specs.Tellings.Telling.{Made};
ghost use Rattle.qg_tree_build.specs.Building.{CanLay};

use qg_disk::Disk;
use qg_node::Node;
use qg_node_alloc::{Book, Ground};
use qg_num::{BlockFault, NoMemory, Steps};
use std::sync::ledger::Ledger;

// Puts a node into the free slot that it names, where it is fresh. After an `Err` the slot may be taken, and nodes are
// as they were.
fn put_there(land: &mut Ground, node: Node) -> Result<(), NoMemory>
    requires { IsTrue (is_free_slot land.old.space (header_of node).address) }
    ensures made { OnOk result (Makes land.old land.new (header_of node).address node) }
    ensures err { OnErr result (land.new.blocks ≡ land.old.blocks) }
    ensures spares { Spares land.old land.new }
    ensures bound { land.new.blocks.bound ≡ land.old.blocks.bound }
    ensures backed { (history : History)
        → IsBacked land.old.blocks history → IsBacked land.new.blocks history }
{
    land.space.take_slot_at(node.header().address)?;
    land.blocks.put_fresh(node)?;
    Ok(())
}

/// Puts a node into the free slot that it names, and tells the book. The node has a text, and the generation to come.
pub(crate) fn lay_node<D: Disk, L: Ledger, B: Book<D, L>>(
    land: &mut Ground,
    disk: &mut D,
    book: &mut B,
    node: Node,
    reads: &mut Steps<L>,
) -> Result<(), BlockFault>
    requires ready { CanLay land.old (D.history disk.old) node }
    requires stands { B.stands book.old land.old disk.old }
    ensures made { OnOk result (Makes land.old land.new (header_of node).address node) }
    ensures takes { OnOk result (Takes 1 (λ q. ⊥) land.old land.new) }
    ensures rests { LeavesBe land.old land.new (D.history disk.old) (D.history disk.new) (D.size disk.old)
        (D.size disk.new)
        (header_of node).generation }
    ensures told { (before : B) (log : List Telling) → B.follows before log book.old
        → OnOk result (B.follows before (log ++ Made (header_of node).address ∷ []) book.new) }
    ensures book { KeepsBook B.stands B.settled book.old book.new land.old land.new disk.old disk.new result }
    ensures fails { FailsByDisk (D.history disk.old) (D.faults disk.old) (D.faults disk.new) result }
    ensures reads { reads.new + B.spent book.old ≤ reads.old + B.spent book.new + 1 }
{
    let at = node.header().address;
    put_there(land, node)?;
    book.made(land, disk, at, reads)
}
