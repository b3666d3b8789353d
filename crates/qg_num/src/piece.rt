use crate::{Address, Generation};

/// A run of a file's bytes and where it lies (on-disk format, EXTENT_DATA). All but the stamp are in bytes.
#[derive(Clone, Copy, PartialEq, Eq)]
pub struct Piece {
    /// Where the run begins in the file.
    pub position: u64,
    /// How long it is.
    pub len: u64,
    /// The address of the extent.
    pub extent: Address,
    /// Where the run begins in the extent.
    pub offset: u64,
    /// The generation in which the extent was written.
    pub stamp: Generation,
    /// The extent's whole length.
    pub extent_bytes: u64,
}
