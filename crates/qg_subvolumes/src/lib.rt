//! Subvolumes that begin, empty or as snapshots, and subvolumes that go.
#![tactic(auto)]

mod child;
mod copying;
mod counting;
mod creating;
mod dropping;
mod extents;
mod parting;
mod sharing;
mod snapshots;

pub use counting::{count_nodes, ways_of};
pub use creating::create;
pub use dropping::drop_all;
pub use snapshots::snapshot;
