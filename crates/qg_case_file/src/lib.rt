//! Files of cases: the lines of a file say which words a program is called with, over which disk, source and sink, and
//! what is wanted.
//!
//! `case_names` and `case_text` find the files, and `read_case` reads a file's lines.
#![tactic(auto)]

mod case;
mod fault;
mod files;
mod lines;
mod numbers;
mod part;
mod read;
mod steps;
mod text;

pub use case::{Case, CaseRun, Crashes, Flip, Number, Part, Plan, Step, Wanted};
pub use fault::{CaseFault, Complaint, NoMemory};
pub use files::{case_names, case_text};
pub use read::read_case;
pub use text::words_of;
