//! All nodes that subvolumes reach, each read once however many reach it.
#![tactic(auto)]

mod surveying;

pub use surveying::survey;
