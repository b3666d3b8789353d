// What is edited.
use qg_node::Body;
use qg_num::Key;

/// What becomes of the items of the leaf that a key leads to.
#[derive(Drop)]
pub enum Change {
    /// An item with the key and this body comes in. None has the key.
    Insert(Body),
    /// The item with the key gets this body.
    Replace(Body),
    /// The item with the key goes.
    Remove,
    /// All items go.
    Clear,
}

/// A change, and the key that leads to its leaf.
#[derive(Drop)]
pub struct Edit {
    /// The key.
    pub key: Key,
    /// What is done to the item under it, or to all items.
    pub change: Change,
}
