// Calls on checksums.
use crate::bytes::fresh;
use call_lines::{Fault, numbers_of};
use qg_crc32c::{Running, crc32c};
use std::alloc::Global;

/// So many bytes, each a seventh of the square of its place, modulo 256.
fn squares(alloc: Global, count: u64) -> Result<Vec<u8>, Fault> {
    let mut bytes = Vec::new(alloc);
    for place in 0..count {
        bytes.push((place.wrapping_mul(place) / 7 % 256) as u8)?;
    }
    Ok(bytes)
}

/// The checksum of bytes that come in pieces of a size.
fn checksum_in_pieces(bytes: &[u8], size: usize) -> Result<u32, Fault> {
    if size == 0 {
        return Err(Fault::Unmet);
    }
    let mut running = Running::new();
    for piece in bytes.chunks(size) {
        running.update(piece);
    }
    Ok(running.finish())
}

/// A checksum in hex.
pub(crate) fn told_checksum(alloc: Global, checksum: u32) -> Result<String, Fault> {
    Ok(format!(in alloc; "{checksum:08x}")?)
}

/// Makes a call.
pub(crate) fn answer(
    alloc: Global,
    bytes: &mut Vec<u8>,
    verb: &str,
    text: &str,
) -> Result<String, Fault> {
    if verb == "checksum" {
        return told_checksum(alloc, crc32c(&fresh(alloc, text)?));
    }
    match (verb, numbers_of(alloc, text)?.as_slice()) {
        ("squares", [count]) => {
            *bytes = squares(alloc, *count)?;
            told_checksum(alloc, crc32c(bytes))
        }
        ("in-pieces", [size]) => told_checksum(alloc, checksum_in_pieces(bytes, *size as usize)?),
        _ => Err(Fault::Call),
    }
}
