// New nodes in free slots.
ghost use Rattle.std.specs.Prelude.{◌≡◌, ◌<◌, List, IfOk, OnErr, IsTrue};
ghost use Rattle.qg_device.specs.History.{History};
ghost use Rattle.qg_blocks.specs.Table.{with_number};
ghost use Rattle.qg_blocks.specs.NodesFound.{IsBacked};
ghost use Rattle.qg_space.specs.Holding.{free_slots, is_free_slot};
ghost use Rattle.qg_node_alloc.specs.Changes.{Makes, node_at};
ghost use Rattle.qg_node_alloc.specs.Tellings.{Spares};

use crate::Ground;
use qg_node::{Header, Node};
use qg_num::{Address, NoMemory};
use qg_space::Space;

/// Takes a free slot.
fn take_slot(space: &mut Space) -> Result<Address, NoMemory>
    requires { 0 < free_slots space.old }
    ensures free { IfOk result (λ slot. IsTrue (is_free_slot space.old slot)) }
    ensures taken { IfOk result (λ slot. space.new ≡ record space.old { slots = with_number slot space.old.slots }) }
    ensures err { OnErr result (space.new ≡ space.old) }
{
    match space.take_slot()? {
        Some(slot) => Ok(slot),
        None => unreachable!(),
    }
}

/// The node, at another address.
fn node_at(node: Node, address: Address) -> Node
    ensures { result ≡ node_at address node }
{
    match node {
        Node::Leaf { header, items } => Node::Leaf {
            header: Header { address, ..header },
            items,
        },
        Node::Inner { header, pointers } => Node::Inner {
            header: Header { address, ..header },
            pointers,
        },
    }
}

/// Puts a node into a free slot, where it is fresh. The answer is its address. After an `Err` the slot may be taken,
/// and nodes are as they were.
pub(crate) fn put_node(land: &mut Ground, node: Node) -> Result<Address, NoMemory>
    requires { 0 < free_slots land.old.space }
    ensures made { IfOk result (λ now. Makes land.old land.new now node) }
    ensures err { OnErr result (land.new.blocks ≡ land.old.blocks) }
    ensures spares { Spares land.old land.new }
    ensures bound { land.new.blocks.bound ≡ land.old.blocks.bound }
    ensures backed { (history : History) → IsBacked land.old.blocks history
        → IsBacked land.new.blocks history }
{
    let slot = take_slot(&mut land.space)?;
    land.blocks.put_fresh(node_at(node, slot))?;
    Ok(slot)
}
