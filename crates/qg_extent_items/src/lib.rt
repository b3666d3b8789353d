//! What an edit of a book of references is in the items of the extent tree.
#![tactic(auto)]

mod edits;
mod laws;
mod reading;
mod standing;

pub use edits::{BookEdits, edit_to_mark, edits_to_add, edits_to_drop};
pub use laws::{book_of_items, edits_of_items};
pub use reading::{count_in, head_in, head_of_item, references_in, standing_in};
pub use standing::Standing;
