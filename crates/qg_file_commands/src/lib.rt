//! File commands over what a store keeps: each is refused, or done and pending.
#![tactic(auto)]

mod cloning;
mod finding;
mod listing;
mod ranges;
mod reserving;
mod resizing;
mod unlinking;
mod writing;

pub use cloning::clone;
pub use listing::list;
pub use resizing::truncate;
pub use unlinking::unlink;
pub use writing::write;
