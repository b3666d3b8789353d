//! Which references change when a node is copied, and when a subvolume stops reaching one.
#![tactic(auto)]

mod cases;
mod copying;
mod laws;
mod left;

pub use cases::{Edits, Leaving};
pub use copying::edits;
pub use laws::{copying_turns_what_is_owed, leaving_turns_what_is_owed};
pub use left::leaving;
