//! What subvolumes' trees, which may share nodes, are in the state of the machine. It has definitions and laws, and no
//! code.
#![tactic(auto)]

mod laws;

pub use laws::{
    commands_copy, nodes_are_those_reached, owed_is_counted, state_is_whole, trees_are_walked,
};
pub use qg_fs_tree as fs_tree;
pub use qg_tree_backrefs as tree_backrefs;
