//! A store: what an open image stands for and what is pending, and each command's one step.
#![tactic(auto)]

mod grouping;
mod store;
mod structural;

pub use qg_image_commits::open_image::{check, image_commit};
pub use store::Store;
