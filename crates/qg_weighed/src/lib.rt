//! What two books of references take in the extent tree, each record once, kept up to date.
#![tactic(auto)]

mod book_copy;
mod lacking;
mod laws;
mod weighed;
mod whole;

pub use book_copy::BookCopy;
pub use laws::weight_law;
pub use qg_extents as extents;
pub use weighed::Weighed;
