//! Nodes of B-trees, and their texts (on-disk format, "nodes and leaves").
#![tactic(auto)]

mod fault;
mod item;
mod keyed;
mod laws;
mod node;
mod pointer;
mod reading;
mod writing;

pub use fault::{NodeFault, ReadFault};
pub use item::{Body, Item, Items, copy_items};
pub use keyed::Keyed;
pub use laws::round_trips;
pub use node::{HEADER_BYTES, Header, ITEM_HEADER_BYTES, Node, POINTER_BYTES};
pub use pointer::{Pointer, Pointers};
pub use reading::read_node;
pub use writing::write_node;
