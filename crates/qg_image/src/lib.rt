//! What the bytes of an image stand for: trees of nodes, what their items say, and files; the state of the machine, and
//! what is reached, counted, limited, free, needed and owed in it; and when an image is sound. It has definitions and
//! types, and no code.
#![tactic(auto)]

mod element;
mod expected;
mod failure;
mod file;
mod part;
mod quota;
mod tree;

pub use element::Element;
pub use expected::Expected;
pub use failure::Failure;
pub use file::{File, FileList};
pub use part::{ExtentPart, FilePart, QuotaPart, RootPart};
pub use qg_items as items;
pub use qg_node as node;
pub use quota::{Group, Quota};
pub use tree::TreeKind;
