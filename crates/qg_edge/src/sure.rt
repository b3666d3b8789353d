// A source and a sink in memory that never fail.
ghost use Rattle.std.specs.Prelude.{◌≡◌, ◌<◌, ◌++◌, [], length, take, drop, min, Ok, Some, OnOk, OnErr, IfOk};
ghost use Rattle.std.specs.Prelude.{IsOkUnless};

use crate::{EdgeFault, Sink, Source};
use std::alloc::Global;
use std::marker::Model;

/// A source in memory that never fails (this project's own). A contract sees the bytes that were not
/// taken yet.
#[derive(Drop)]
pub struct SureSource {
    bytes: Vec<u8>,
    taken: usize,
}

impl Model for SureSource {
    ghost use Rattle.std.specs.Prelude.{ℕ, ◌≤◌, List, drop, vec_len};

    ghost Value = { List ℕ };

    ghost view = { λ s. drop s.taken s.bytes.items };

    ghost invariant = { λ s. s.taken ≤ vec_len s.bytes };
}

impl SureSource {
    /// A source of these bytes.
    pub fn new(bytes: Vec<u8>) -> SureSource
        ensures { result ≡ bytes.items }
    {
        SureSource { bytes, taken: 0 }
    }
}

impl Source for SureSource {
    ghost bytes_left = { λ left. Some left };

    ghost faults = { λ _. 0 };

    /// Moves as many bytes as are left and have room. It always does, and takes no memory.
    fn take(&mut self, buf: &mut [u8]) -> Result<usize, EdgeFault>
        requires { 0 < length buf.old }
        ensures count { result ≡ Ok (min (length self.old) (length buf.old)) }
        ensures moved { IfOk result (λ count. buf.new ≡ take count self.old ++ drop count buf.old) }
        ensures left { IfOk result (λ count. self.new ≡ drop count self.old) }
    {
        let rest = &self.bytes[self.taken..];
        let count = rest.len().min(buf.len());
        buf[..count].copy_from_slice(&rest[..count]);
        self.taken += count;
        Ok(count)
    }
}

/// A sink in memory that never fails (this project's own). A contract sees the bytes that were put.
#[derive(Drop)]
pub struct SureSink {
    bytes: Vec<u8>,
}

impl Model for SureSink {
    ghost use Rattle.std.specs.Prelude.{ℕ, List};

    ghost Value = { List ℕ };

    ghost view = { λ s. s.bytes.items };
}

impl SureSink {
    /// A sink that holds nothing yet.
    pub fn new(alloc: Global) -> SureSink
        ensures { result ≡ [] }
    {
        SureSink {
            bytes: Vec::new(alloc),
        }
    }

    /// The bytes that were put.
    pub fn bytes(&self) -> &[u8]
        ensures { result.now ≡ self.now }
    {
        &self.bytes
    }
}

impl Sink for SureSink {
    ghost bytes_held = { λ bytes. Some bytes };

    ghost faults = { λ _. 0 };

    /// Appends the piece, or nothing where memory is refused. It never fails.
    fn put(&mut self, piece: &[u8]) -> Result<(), EdgeFault>
        ensures ok { OnOk result (self.new ≡ self.old ++ piece.now) }
        ensures err { OnErr result (self.new ≡ self.old) }
        ensures only { IsOkUnless result EdgeFault.NoMemory }
    {
        self.bytes.extend_from_slice(piece)?;
        Ok(())
    }
}
