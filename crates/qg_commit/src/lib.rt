//! Making an image, opening one, and the calls that write a commit; laws on these calls and on crashes.
#![tactic(auto)]

mod committing;
mod fault;
mod fresh;
mod laws;
mod making;
mod opening;
mod superblocks;
mod write;
mod write_fresh;

pub use committing::commit;
pub use fault::MkfsFault;
pub use laws::{commit_is_on_disk, fresh_are_flushed, fresh_are_reached, written_are_new_nodes};
pub use making::mkfs;
pub use opening::open;
pub use qg_other_trees as other_trees;
pub use qg_other_trees::check;
pub use qg_walk::OpenFault;
pub use superblocks::{
    new_nodes_stand, other_nodes_stay, the_calls_of_a_commit, the_calls_of_opening,
};
pub use write::{write_nodes, write_superblocks};
