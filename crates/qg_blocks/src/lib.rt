//! The nodes of an image by address: those made since the last commit, a bounded cache of others, and the rest on the
//! disk.
#![tactic(auto)]

mod blocks;
mod reading;

pub use blocks::Blocks;
pub use qg_image as image;
pub use reading::has_slot;
