//! What was touched since the last commit: for each address the bytes that begin there, and the subvolumes that reached
//! them then.
#![tactic(auto)]

mod trace;

pub use trace::{Trace, TraceEntry};
