//! What structural commands change of what an open image keeps, between their commits; what is kept of an image that
//! was just opened; and what is shown of the groups.
#![tactic(auto)]

mod changing;
mod grouping;
mod holding;
mod numbering;
mod opening;
mod showing;

pub use changing::{create_change, delete_change, snap_change};
pub use grouping::change_groups;
pub use numbering::{are_too_many, number_next};
pub use opening::kept_of;
pub use qg_subvolumes as subvolumes;
pub use showing::show;
