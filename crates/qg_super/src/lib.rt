//! The superblock, and the places of an image that follow from it (on-disk format, "superblock").
#![tactic(auto)]

mod choice;
mod laws;
mod places;
mod sizes;
mod superblock;
mod text;

pub use choice::choose;
pub use laws::round_trips;
pub use places::{DATA_BEGIN, FIRST_PLACE, SECOND_PLACE, SECTOR, SLOTS_BEGIN, SUPER_BYTES};
pub use sizes::Sizes;
pub use superblock::Super;
pub use text::{read_super, write_super};
