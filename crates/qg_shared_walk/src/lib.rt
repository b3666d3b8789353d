//! The walk of the trees of all subvolumes of an image, which share nodes, and the rules `refs` and `home` by what is
//! gathered on it.
#![tactic(auto)]

mod digest;
mod extents;
mod full;
mod judging;
mod leaf;
mod lists;
mod memo;
mod nodes;
mod order;
mod subvolumes;
mod surveyed;
mod tree;
mod unkept;
mod walk;

pub use judging::{ReferenceVerdict, judge_references};
pub use nodes::{NodeRead, NodesRead};
pub use subvolumes::read_subvolumes;
