// Bytes of lines: a piece is `PLACE:HEX`, and what no piece tells is 0.
use call_lines::{Fault, add_word, bytes_of, first_word};
use qg_crc32c::crc32c;
use qg_num::{put_bytes, put_u32};
use std::alloc::Global;

/// The most bytes that lines tell of.
const MOST_BYTES: u64 = 16384;

/// Puts the checksum of what it covers in front.
fn seal(bytes: &mut [u8]) -> Result<(), Fault> {
    if bytes.len() < 32 {
        return Err(Fault::Unmet);
    }
    let (checksum, covered) = bytes.split_at_mut(32);
    put_u32(checksum, 0, crc32c(covered));
    Ok(())
}

/// Puts a piece over what is at its place.
fn put_piece(alloc: Global, bytes: &mut [u8], word: &str) -> Result<(), Fault> {
    let Some((place, piece)) = word.split_once(':') else {
        return Err(Fault::Call);
    };
    let place = place.parse::<usize>().map_err(|_| Fault::Number)?;
    let piece = bytes_of(alloc, piece)?;
    if place > bytes.len() || piece.len() > bytes.len() - place {
        return Err(Fault::Unmet);
    }
    put_bytes(bytes, place, &piece);
    Ok(())
}

/// A copy of bytes with changes, each a piece, or the word `sealed`, by which the checksum is made right again.
pub(crate) fn changed(alloc: Global, bytes: &[u8], changes: &str) -> Result<Vec<u8>, Fault> {
    let mut bytes = Vec::from_slice(alloc, bytes)?;
    for word in changes.split(' ') {
        match word {
            "" => {}
            "sealed" => seal(&mut bytes)?,
            word => put_piece(alloc, &mut bytes, word)?,
        }
    }
    Ok(bytes)
}

/// So many bytes as the first word tells, all 0, with changes.
pub(crate) fn fresh(alloc: Global, text: &str) -> Result<Vec<u8>, Fault> {
    let (length, changes) = first_word(text);
    let length = length.parse::<u64>().map_err(|_| Fault::Number)?;
    if length > MOST_BYTES {
        return Err(Fault::Unmet);
    }
    let zeros = vec![in alloc; 0u8; length as usize]?;
    changed(alloc, &zeros, changes)
}

/// A copy of bytes where the highest bit of one is changed.
pub(crate) fn with_flip(alloc: Global, bytes: &[u8], place: usize) -> Result<Vec<u8>, Fault> {
    let mut bytes = Vec::from_slice(alloc, bytes)?;
    if place < bytes.len() {
        bytes[place] ^= 0x80;
    }
    Ok(bytes)
}

/// The pieces that have all bytes of a range but 0.
pub(crate) fn told_pieces(
    alloc: Global,
    bytes: &[u8],
    from: u64,
    to: u64,
) -> Result<String, Fault> {
    let mut answer = String::new(alloc);
    let mut is_piece = false;
    for (place, byte) in bytes.iter().enumerate() {
        let place = place as u64;
        if *byte == 0 || place < from || place >= to {
            is_piece = false;
            continue;
        }
        if !is_piece {
            add_word(&mut answer, format!(in alloc; "{place}:")?.as_str())?;
        }
        answer.push_str(format!(in alloc; "{byte:02x}")?.as_str())?;
        is_piece = true;
    }
    Ok(answer)
}

/// The ranges of places that have a flag, each `FROM..TO`.
pub(crate) fn told_ranges(alloc: Global, flags: &[bool]) -> Result<String, Fault> {
    let mut answer = String::new(alloc);
    let mut begin = None;
    for place in 0..=flags.len() {
        match (place < flags.len() && flags[place], begin) {
            (true, None) => begin = Some(place),
            (false, Some(from)) => {
                add_word(&mut answer, format!(in alloc; "{from}..{place}")?.as_str())?;
                begin = None;
            }
            _ => {}
        }
    }
    Ok(answer)
}
