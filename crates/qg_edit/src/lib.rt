//! What one edit of a tree does to one node: to the leaf that its key leads to, to the pointers above it, and to two
//! neighbours.
#![tactic(auto)]

mod changing;
mod clearing;
mod cutting;
mod edit;
mod merging;
mod ordering;
mod splicing;

pub use changing::edit_leaf;
pub use clearing::clear;
pub use edit::{Change, Edit};
pub use merging::merge;
pub use splicing::splice;
