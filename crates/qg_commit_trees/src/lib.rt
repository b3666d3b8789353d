//! Subvolumes' trees once an image was opened, and once a commit has written them: they stand.
#![tactic(auto)]

mod committing;
mod laws;
mod slots;

pub use committing::committed;
pub use laws::{
    commit_leaves_it, its_book_knows, opening_makes_it, reading_leaves_it, superblocks_keep_slots,
};
