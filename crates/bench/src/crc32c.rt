// Checksums of a text. `bench/crc32c.rs` takes the same.
use crate::report::{Report, timed};
use qg_crc32c::crc32c;
use std::alloc::{AllocError, Global};
use std::io;
use std::rt::Clock;

/// Bytes of the text.
const BYTES: usize = 64 * 1024 * 1024;

/// Bytes of a node, of which a checksum leaves out the first 32.
const NODE: usize = 16384;

/// Prints the checksum of the nine digits, or those of the whole text and of its nodes, with times.
pub(crate) fn measure(rt: &(impl Clock + Print), alloc: Global, report: Report) -> io::Result<()> {
    if !report.is_timed {
        return println!(rt; "{:08x}", crc32c(b"123456789"));
    }
    let text = noise(alloc)?;
    for _ in 0..report.rounds() {
        let (sum, took) = timed(rt, || Ok(crc32c(&text)))?;
        println!(rt; "whole {sum:08x} {took}")?;
        let (sum, took) = timed(rt, || Ok(by_nodes(&text)))?;
        println!(rt; "nodes {sum:08x} {took}")?;
    }
    Ok(())
}

/// The checksums of the text's nodes, laid over each other.
pub(crate) fn by_nodes(text: &[u8]) -> u32 {
    let (nodes, _) = text.as_chunks::<NODE>();
    let mut all = 0;
    for node in nodes {
        all ^= crc32c(&node[32..]);
    }
    all
}

/// The text.
fn noise(alloc: Global) -> Result<Vec<u8>, AllocError> {
    let mut text = vec![in alloc; 0u8; BYTES]?;
    let mut state = 1u32;
    for byte in text.iter_mut() {
        state = state.wrapping_mul(1664525).wrapping_add(1013904223);
        *byte = (state >> 24) as u8;
    }
    Ok(text)
}
