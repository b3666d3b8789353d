//! The numbers that name things in an image, keys and their bytes, commands, answers and the names of what fails.
//!
//! Every other crate stands on these types. A command's and an answer's text is not here: see the grammar of scripts.
#![tactic(auto)]

mod answer;
mod command;
mod counters;
mod fault;
mod field_laws;
mod group;
mod key;
mod laws;
mod names;
mod piece;
mod reading;
mod refusal;
mod rule;
mod sequence;
mod steps;
mod writing;

pub use answer::{Answer, Row};
pub use command::Command;
pub use counters::{Counters, Which};
pub use fault::{BlockFault, Cause, NoMemory, Stop};
pub use field_laws::{reads_back, writes_back};
pub use group::GroupId;
pub use key::Key;
pub use laws::{key_order, key_round_trip};
pub use names::{Address, Generation, Ino, RootId};
pub use piece::Piece;
pub use reading::{is_zero, u32_at, u64_at};
pub use refusal::Refusal;
pub use rule::Rule;
pub use sequence::{GroupList, OwnerList, Pieces, Rows, Sequence};
pub use steps::Steps;
pub use writing::{put_bytes, put_u32, put_u64, put_zeros};
