//! The commit of what an open image keeps, by one survey of all nodes that subvolumes reach; and whose an address is.
#![tactic(auto)]

mod committing;
mod counting;
mod ownership;
mod planning;
mod surveying;

pub use committing::{LAST_GENERATION, commit, commit_now};
pub use ownership::owners;
pub use qg_open_image as open_image;
