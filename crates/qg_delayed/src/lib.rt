//! Changes of a book of references that wait for a commit.
#![tactic(auto)]

mod change;
mod changes;
mod delayed;
mod edit;
mod entry;
mod flushing;
mod head;
mod looking;
mod making;
mod merging;
mod place;
mod references;

pub use change::Change;
pub use changes::Changes;
pub use delayed::Delayed;
pub use edit::Edit;
pub use entry::Entry;
pub use head::{Head, RecordBook};
pub use qg_refs as refs;
