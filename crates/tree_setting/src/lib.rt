//! A tree that is edited with all that its calls are lent, for tests and benches.
#![tactic(auto)]

mod buildable;
mod setting;
mod writing;

pub use setting::Setting;
