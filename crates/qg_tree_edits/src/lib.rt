//! Trees over nodes by address, edited by copy on write.
#![tactic(auto)]

mod changing;
mod child;
mod editing;
mod instead;
mod joining;
mod laws;
mod owning;
mod pairing;
mod rewriting;
mod rooting;
mod settling;
mod standing;

pub use changing::{drop_first_leaf, insert, remove, replace};
pub use laws::slot_laws;
pub use qg_node_alloc as node_alloc;
pub use qg_tree_read as tree_read;
