//! Scripts: the lines of a source, the command of each, and the bytes of replies.
#![tactic(auto)]

mod failure;
mod fault;
mod feed;
mod groups;
mod line;
mod next;
mod numbers;
mod parse;
mod reply;
mod report;
mod text;
mod words;

pub use failure::{write_broken, write_differs};
pub use fault::LineFault;
pub use feed::Feed;
pub use line::Line;
pub use next::next_line;
pub use parse::parse_line;
pub use reply::{write_no_line, write_reply};
pub use report::{write_sound, write_summary};
pub use text::Text;
