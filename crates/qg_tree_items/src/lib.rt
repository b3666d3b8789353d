//! What the items of each tree say, which of them the tree may hold, and the rules on what all of them say.
#![tactic(auto)]

mod extents;
mod file;
mod files;
mod last;
mod list;
mod part;
mod piece;
mod quota;
mod root;
mod roots;
mod row;
mod run;

pub use files::{INODES_END, LARGEST_SIZE, LEAST_INODE, is_aligned, is_between, is_piece};
pub use list::PartList;
pub use part::TreePart;
pub use piece::{piece_in, piece_of};
pub use qg_image as image;
pub use root::is_subvolume_number;
pub use roots::{are_roots, root_of};
pub use row::FileRow;
