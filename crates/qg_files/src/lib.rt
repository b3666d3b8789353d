//! What is done to the pieces of one file: a range is cut out, a piece is put, pieces are put in the place of a range,
//! a range is taken or only looked at, the end is cut off.
#![tactic(auto)]

mod cut;
mod part;
mod put;
mod replace;
mod search;
mod splice;
mod split;
mod take;

pub use cut::{cut_range, truncate};
pub use put::put_piece;
pub use replace::replace_range;
pub use split::{Split, split_range};
pub use take::take_range;
