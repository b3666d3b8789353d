//! The lines of the generator: a load that is the same everywhere.
#![tactic(auto)]

mod draws;
mod generator;
mod line;
mod opening;

pub use generator::Generator;
