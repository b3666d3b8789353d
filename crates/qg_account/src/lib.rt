//! The counters of quota groups, kept by differences: what a change of owners makes of them, and that this is the
//! direct count.
#![tactic(auto)]

mod candidates;
mod fault;
mod laws;
mod members;
mod moving;
mod pivots;
mod standing;
mod stored;
mod updating;

pub use fault::CounterFault;
pub use laws::{
    changes_add_up, others_keep_theirs, snapshots_and_deletions_are_changes, stored_are_counted,
    traces_tell_changes,
};
pub use stored::stored_counters;
pub use updating::update;
