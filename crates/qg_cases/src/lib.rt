//! Cases of a program as data: what a file of cases says is done and judged.
//!
//! `judge_case` does what a file's lines say and reports what came in place of what was wanted. The program itself is
//! behind `Program`.
#![tactic(auto)]

mod calls;
mod change;
mod crash;
mod crashes;
mod disk;
mod judge;
mod report;
mod run;

pub use disk::CaseDisk;
pub use judge::{Cases, judge_case};
pub use report::Report;
pub use run::Program;
