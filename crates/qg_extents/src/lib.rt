//! The book of references in memory, and the extent tree's items that stand for it.
#![tactic(auto)]

mod book;
mod extents;
mod fault;
mod fresh;
mod gather;
mod head;
mod items;
mod kept;
mod laws;
mod read;

pub use extents::Extents;
pub use fault::RefsFault;
pub use fresh::fresh_records;
pub use head::{Head, head_of, is_record};
pub use items::{head_item, reference_item};
pub use laws::book_laws;
pub use qg_refs as refs;
