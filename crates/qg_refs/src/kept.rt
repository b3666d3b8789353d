ghost use Rattle.std.specs.Prelude.{◌≡◌};

use crate::RefList;
use qg_num::Generation;
use std::alloc::AllocError;

/// What a record tells of a node or a data extent beside its references (on-disk format, EXTENT_ITEM and
/// METADATA_ITEM).
#[derive(Clone, Copy, PartialEq, Eq)]
pub struct What {
    /// Its length in bytes.
    pub bytes: u64,
    /// A node's level; none for a data extent.
    pub level: Option<u8>,
    /// The generation in which it was written.
    pub generation: Generation,
}

/// All that a book keeps of a node or a data extent (this project's own).
#[derive(Drop)]
pub struct Kept {
    /// What is known of it.
    pub what: What,
    /// A node's full mark (on-disk format, FULL_BACKREF).
    pub full: bool,
    /// The references to it.
    pub references: RefList,
}

impl Clone for Kept {
    ghost is_clone = { λ kept copy. copy ≡ kept };

    fn clone(&self) -> Result<Kept, AllocError> {
        Ok(Kept {
            what: self.what,
            full: self.full,
            references: self.references.clone()?,
        })
    }
}
