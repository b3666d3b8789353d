//! Which runs of sectors and which node slots are free: those that neither the present state nor the last commit holds.
#![tactic(auto)]

mod many;
mod run;
mod runs;
mod slots;
mod space;

pub use many::{give_slots, take_slots};
pub use space::Space;
