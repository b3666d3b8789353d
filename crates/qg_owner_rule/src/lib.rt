//! The rule `home`: each node that isn't full is reached by its owner.
#![tactic(auto)]

mod below;
mod home;
mod housed;
mod linked;
mod marks;
mod own;
mod places;

pub use below::all_below;
pub use home::homeless;
pub use linked::{Linked, linked_of};
pub use marks::highest_level;
pub use places::place_of_node;
