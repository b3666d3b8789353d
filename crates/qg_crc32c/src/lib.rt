//! CRC-32C, the checksum of every node and superblock.
//!
//! A long text is divided by rows of 32 bytes (`rows`), and what is left of it by words of eight (`words`).
#![tactic(auto)]

mod byte_tables;
mod rows;
mod words;

ghost use Rattle.std.specs.Prelude.{◌≡◌, ◌++◌, [], List, ℕ};
ghost use Rattle.qg_crc32c.specs.Crc32c.{crc32c_of, remainder};
ghost use Rattle.qg_crc32c.specs.Running.{HasTaken};

use crate::rows::{FRONT, Rows};
use crate::words::after_words;
use std::marker::Model;

/// The checksum of the bytes (on-disk format, "checksum").
pub fn crc32c(bytes: &[u8]) -> u32
    ensures { result ≡ crc32c_of bytes.now }
{
    let mut running = Running::new();
    running.update(bytes);
    running.finish()
}

/// A checksum of bytes that come in pieces, the same for every cutting. Clauses see it as the remainder so far.
#[derive(Drop)]
pub struct Running {
    register: u32,
}

impl Model for Running {
    ghost Value = { ℕ };

    ghost view = { λ running. running.register };
}

impl Running {
    /// One that has taken no bytes.
    pub fn new() -> Running
        ensures { HasTaken result [] }
    {
        Running {
            register: 0xFFFF_FFFF,
        }
    }

    /// Takes the next bytes.
    pub fn update(&mut self, bytes: &[u8])
        ensures { (so_far : List ℕ)
            → HasTaken self.old so_far → HasTaken self.new (so_far ++ bytes.now) }
    {
        self.register = remainder_after(self.register, bytes);
    }

    /// The checksum of all bytes that were taken.
    pub fn finish(self) -> u32
        ensures { (taken : List ℕ) → HasTaken self taken → result ≡ crc32c_of taken }
    {
        self.register ^ 0xFFFF_FFFF
    }
}

/// The register after the bytes.
fn remainder_after(register: u32, bytes: &[u8]) -> u32
    ensures { result ≡ remainder register bytes.now }
{
    if bytes.len() < FRONT {
        return after_words(register, bytes);
    }
    let (front, rest) = bytes.split_at(FRONT);
    let (whole, end) = rest.as_chunks::<32>();
    let mut rows = Rows::begin(register, front);
    for row in whole {
        rows = rows.with_row(row);
    }
    after_words(rows.register(), end)
}
