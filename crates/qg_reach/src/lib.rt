//! The extents that files name, and the rule on extents.
#![tactic(auto)]

mod extents;
mod space;

pub use extents::extent_of;
pub use space::{LONGEST_EXTENT, space_failure};
