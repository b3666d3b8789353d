//! What the program does: the words of a command line, a disk, a source and a sink go in, and a status comes out.
#![tactic(auto)]

mod answer;
mod check;
mod generate;
mod make;
mod program;
mod put;
mod refuse;
mod run;
mod session;
mod status;
mod turn;

pub use program::run_program;
pub use status::Status;
