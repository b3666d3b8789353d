//! References to nodes and data extents, counted, and the book that keeps them.
#![tactic(auto)]

mod book;
mod counted;
mod kept;
mod list;
mod order;
mod place;

pub use book::RefBook;
pub use counted::{Counted, greatest_count};
pub use kept::{Kept, What};
pub use list::RefList;
pub use order::{is_before, is_same};
pub use qg_items::Reference;
