//! What file commands do to a subvolume's tree and to the references that it owes.
#![tactic(auto)]

mod changes;
mod commands;
mod editing;
mod exchange;
mod exchange_laws;
mod found;
mod inode;
mod laws;
mod naming;
mod step;
mod steps;
mod texts;

pub use commands::{clone_into, truncate, unlink, write};
pub use exchange_laws::{
    exchanges_by_files, exchanges_can_be_made, names_are_exchanged, names_are_few,
    rests_name_their_extents, steps_are_few, steps_make_the_exchange, sums_are_exchanged,
};
pub use found::Found;
pub use laws::commands_leave_room;
pub use qg_shared_trees::{fs_tree, tree_backrefs};
pub use step::Step;
pub use steps::steps_between;
