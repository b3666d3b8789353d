//! A subvolume's tree, edited together with the references that it owes.
#![tactic(auto)]

mod editing;
mod fs_tree;
mod laws;
mod naming;
mod turning;

pub use fs_tree::FsTree;
pub use laws::{few_bytes_stand_low, names_in_another_order, new_slots_add_up};
