//! The book of references that a subvolume's tree tells what it does.
#![tactic(auto)]

mod book;
mod cases;
mod coming;
mod exchange;
mod giving;
mod laws;
mod lists;
mod naming;
mod taking;
mod tree_refs;

pub use book::let_go;
pub use laws::{heavier_law, need_law};
pub use qg_weighed::BookCopy;
pub use tree_refs::TreeRefs;
