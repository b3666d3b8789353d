//! What quota groups count where subvolumes share nodes and extents: who reaches what, and the bytes of each group.
#![tactic(auto)]

mod above;
mod counting;
mod direct;
mod groups;
mod groups_above;
mod laws;
mod level;
mod links;
mod namers;
mod own;
mod places;
mod portions;
mod reached;
mod rows;
mod sets;
mod surveyed;

pub use counting::Portion;
pub use direct::group_counts;
pub use groups::group_counters;
pub use laws::groups_are_direct;
pub use links::reached_of;
pub use reached::{Reached, reached_from};
pub use sets::SetId;
pub use surveyed::{Surveyed, surveyed_of};
