// How a reference stands among items.

/// How a reference to what begins at an address stands among the items of the extent tree (on-disk format,
/// "backreferences").
#[derive(Clone, Copy, PartialEq, Eq)]
pub struct Standing {
    /// How often it is there; 0 where it isn't.
    pub count: u32,
    /// Of a keyed reference to data, the number in the key of its EXTENT_DATA_REF, or the least one that is free at the
    /// address. Nothing is asked of it where the reference is another one.
    pub number: u64,
}
