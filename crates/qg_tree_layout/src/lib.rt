//! Trees of nodes: a sorted list of keys and bodies, kept within the shape rule.
#![tactic(auto)]

mod building;
mod cut;
mod part;
mod row;

pub use building::{Built, build};
