// Pointers of an inner node.
use qg_num::{Address, Generation, Key, Sequence};

/// Where a child lies (on-disk format, "internal node").
#[derive(Clone, Copy, PartialEq, Eq)]
pub struct Pointer {
    /// The child's first key.
    pub key: Key,
    /// The child's address, in bytes.
    pub child: Address,
    /// The child's generation.
    pub generation: Generation,
}

/// The pointers of an inner node.
pub type Pointers = Sequence<Pointer>;
