//! A whole tree built of items in order, as fresh nodes in free slots.
#![tactic(auto)]

mod building;
mod laying;
mod planning;

pub use building::build;
