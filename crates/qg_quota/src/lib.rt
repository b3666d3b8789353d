//! The items of the quota tree, both ways: written from quota, and read as quota, or the first rule that they break.
#![tactic(auto)]

mod fault;
mod item;
mod laws;
mod pairs;
mod reading;
mod rules;
mod state;
mod told;
mod writing;

pub use fault::QuotaFault;
pub use laws::{items_are_written_back, quota_is_read_back};
pub use reading::read_quota;
pub use state::{from_items, to_items};
pub use writing::quota_items;
