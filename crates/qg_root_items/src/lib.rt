//! What stands in the trees that a commit writes: the items for files and for roots.
#![tactic(auto)]

mod files;
mod roots;

pub use files::file_items;
pub use roots::root_items;
