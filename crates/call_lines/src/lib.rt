//! Calls of libraries as lines of data: a line has a call and the answer that is wanted, and a program makes the call.
#![tactic(auto)]

mod fault;
mod making;
mod words;

pub use fault::Fault;
pub use making::{Calls, make_all};
pub use words::{
    add_group, add_word, bytes_of, first_word, numbers_of, told, told_if, told_number,
};
