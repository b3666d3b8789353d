//! What an open image keeps: trees, space, references, quota and what is pending; which subvolume's tree is at hand;
//! and the slots that commands need.
#![tactic(auto)]

mod need;
mod open_image;
mod turning;

pub use need::{commit_need, no_nodes, structural_need};
pub use open_image::{KeptSubvolume, OpenImage, count_pending};
pub use qg_fs_laws::{
    check, commit_trees, file_edits, fs_tree, image_commit, other_trees, tree_backrefs,
};
pub use qg_inodes as inodes;
pub use turning::turn_to;
