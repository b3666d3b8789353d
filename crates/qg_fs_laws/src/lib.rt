//! Laws: that the trees of subvolumes make the machine's steps, are kept of the state that a sound image stands for
//! once it was opened, and are a sound image again once they are committed. It has no code.
#![tactic(auto)]

mod committing;
mod opening;
mod stepping;

pub use committing::{extents_stay_short, tree_commit_is_kept, tree_commit_is_sound};
pub use opening::{opened_is_kept, sound_image_is_known};
pub use qg_commit as image_commit;
pub use qg_commit::{check, other_trees};
pub use qg_commit_trees as commit_trees;
pub use qg_file_edits as file_edits;
pub use qg_file_edits::{fs_tree, tree_backrefs};
pub use stepping::{
    commit_is_one_of_the_machine, file_command_copies, held_state_is_kept, numbers_are_the_trees,
    reach_is_the_trees, state_is_held,
};
