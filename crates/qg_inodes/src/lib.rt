//! The files of a subvolume by the items of its tree: what a command asks of one file, and laws over edits of items.
#![tactic(auto)]

mod apart;
mod file;
mod inode;
mod item;
mod laws;
mod pieces;

pub use file::file_of;
pub use inode::inode_of;
pub use item::{inode_key, piece_key};
pub use laws::{
    edits_by_bodies, edits_of_one_file, items_are_told_by_bodies, items_of_files,
    one_file_by_bodies, one_range_by_positions, pieces_by_range,
};
pub use pieces::pieces_meeting;
