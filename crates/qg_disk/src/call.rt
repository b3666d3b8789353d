// The calls of a disk, as a disk in memory keeps them.
ghost use Rattle.std.specs.Prelude.{◌≡◌, IfOk};

use std::alloc::{AllocError, Global};
use std::marker::Model;

/// Bytes that a disk was to write (this project's own). A contract sees the list of them.
#[derive(Drop)]
pub struct Bytes {
    bytes: Vec<u8>,
}

impl Model for Bytes {
    ghost use Rattle.std.specs.Prelude.{List, ℕ};

    ghost Value = { List ℕ };

    ghost view = { λ b. b.bytes.items };
}

impl Bytes {
    // A copy of these bytes.
    pub(crate) fn copied(alloc: Global, bytes: &[u8]) -> Result<Self, AllocError>
        ensures { IfOk result (λ copy. copy ≡ bytes.now) }
    {
        Ok(Bytes {
            bytes: bytes.to_vec(alloc)?,
        })
    }

    /// The bytes in order.
    pub fn as_slice(&self) -> &[u8]
        ensures { result.now ≡ self.now }
    {
        &self.bytes
    }
}

/// What was asked of a disk (this project's own). Places and lengths are in bytes.
#[derive(Drop)]
pub enum Request {
    /// To read so many bytes from a place on.
    Read { at: u64, count: u64 },
    /// To write these bytes from a place on.
    Write { at: u64, bytes: Bytes },
    /// To cut it to a length.
    Cut { len: u64 },
    /// To make sure of what it holds.
    Sync,
}

/// A call that a disk in memory answered, by Ok or by `Failed` (this project's own). A write that failed
/// left the first half of its bytes, rounded down; a cut that failed left nothing behind its length; any
/// other call that failed did nothing.
#[derive(Drop)]
pub struct Call {
    /// What was asked.
    pub request: Request,
    /// Whether the answer was `Failed`.
    pub failed: bool,
}
