//! Whether the extent tree records exactly what is owed: the rule `refs`, over lists of what is owed, of what there is
//! and of what is recorded.
#![tactic(auto)]

mod collect;
mod failure;
mod fronts;
mod here;
mod order;
mod owing;
mod record;
mod references;
mod rules;
mod thing;

pub use collect::{owing_of_root, owings_of_node, owings_under};
pub use failure::owed_failure;
pub use owing::Owing;
pub use rules::references_failure;
pub use thing::{Kind, Thing, sort_things, thing_of_extent, thing_of_node};
