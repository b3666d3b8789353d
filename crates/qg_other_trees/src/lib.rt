//! The root, extent and quota trees of a commit, laid out in free slots, where the subvolumes' trees stay as edits left
//! them; and what state they tell.
#![tactic(auto)]

mod laws;
mod laying;
mod trees;

pub use laws::{
    commit_is_sound, items_weigh_as_records, layout_is_walked_in_the_image,
    other_trees_tell_the_state, whole_owes_what_begins,
};
pub use laying::{OtherTrees, TreeContents, lay_other_trees, stamp_after};
pub use qg_check as check;
