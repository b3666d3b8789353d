//! The words of the command line, read exactly where they are those of a form.
#![tactic(auto)]

mod command;
mod form;
mod number;
mod parse;
mod spelling;

pub use form::{Form, read_words};
pub use number::decimal_of;
