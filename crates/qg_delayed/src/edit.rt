use qg_items::Reference;
use qg_num::Address;
use qg_refs::What;

/// An edit of the book below (this project's own).
#[derive(Clone, Copy)]
pub enum Edit {
    /// One reference more.
    Add {
        at: Address,
        what: What,
        reference: Reference,
    },
    /// One reference less.
    Drop {
        at: Address,
        reference: Reference,
    },
    /// The full mark.
    SetFull {
        at: Address,
    },
}
