//! One node edited, cut in two, and joined with its neighbour, so that nodes keep the shape rule.
#![tactic(auto)]

mod cut;
mod editing;
mod filling;
mod joining;
mod part;
mod pointing;
mod searching;
mod splitting;

pub use editing::{
    insert_item, insert_pointer, remove_item, remove_pointer, replace_body, set_pointer,
};
pub use filling::{is_overfull, is_thin};
pub use joining::{Joined, join};
pub use part::Weighed;
pub use pointing::pointer_to;
pub use searching::{child_for, find_item};
pub use splitting::split;
