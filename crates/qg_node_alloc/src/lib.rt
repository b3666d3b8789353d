//! Nodes and space together, and how a tree comes by one node that it may edit: a copy, a new one, one that it leaves.
#![tactic(auto)]

mod book;
mod ground;
mod known_slots;
mod making;
mod owning;
mod putting;
mod slot_book;

pub use book::Book;
pub use ground::Ground;
pub use known_slots::KnownSlots;
pub use making::{leave_node, make_node};
pub use owning::cow_node;
pub use qg_blocks as blocks;
pub use slot_book::SlotBook;
