//! Trees over nodes by address: what stands under a key, at or below one, or from one to another.
#![tactic(auto)]

mod leaf;
mod reach;
mod reading;
mod tree;
mod way;

pub use tree::Tree;
pub use way::Way;
