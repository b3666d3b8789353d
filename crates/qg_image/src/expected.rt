use qg_num::{Generation, Key};

/// What is expected of a node by the way that leads to it (on-disk format, "B-tree"). Where a field is none, nothing is
/// told.
#[derive(Clone, Copy)]
pub struct Expected {
    /// Its level.
    pub level: Option<u8>,
    /// The generation of the commit that wrote it.
    pub generation: Option<Generation>,
    /// The key of the pointer that leads to it. A root has none.
    pub from: Option<Key>,
    /// The next key on the way, past all its own.
    pub to: Option<Key>,
}
