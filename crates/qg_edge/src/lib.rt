//! Sources and sinks of bytes: what each call does to the bytes, and how often an object has failed.
//!
//! `Source` and `Sink` are what the layers above see. `MemSource` and `MemSink` stand in memory and
//! fail where they are told to, `SureSource` and `SureSink` stand there and never fail, and
//! `StdSource` and `StdSink` are over std's readers and writers.
#![tactic(auto)]

mod adapters;
mod fault;
mod memory;
mod plan;
mod sure;
mod traits;

pub use adapters::{StdSink, StdSource};
pub use fault::EdgeFault;
pub use memory::{MemSink, MemSource};
pub use sure::{SureSink, SureSource};
pub use traits::{Sink, Source};
