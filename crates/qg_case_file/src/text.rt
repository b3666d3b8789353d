// Words, hex and escapes.
use crate::Complaint;
use std::alloc::{AllocError, Global};

/// What is before the first space, and what behind it.
pub(crate) fn first_word(line: &str) -> (&str, &str) {
    match line.split_once(' ') {
        Some((word, rest)) => (word, rest),
        None => (line, ""),
    }
}

/// A line without its comment.
pub(crate) fn without_comment(line: &str) -> &str {
    match line.split_once('#') {
        Some((front, _)) => front.trim_end(),
        None => line.trim_end(),
    }
}

/// The words of a text, each behind one space but the first.
pub fn words_of(alloc: Global, text: &str) -> Result<Vec<String>, AllocError> {
    let mut words = Vec::new(alloc);
    for word in text.split(' ') {
        words.push(String::from_str(alloc, word)?)?;
    }
    Ok(words)
}

/// Bytes in hex. Spaces may stand between them.
pub(crate) fn hex_of(alloc: Global, text: &str) -> Result<Vec<u8>, Complaint> {
    let mut bytes = Vec::new(alloc);
    for word in text.split(' ') {
        let piece = hex::decode(alloc, word).map_err(|_| Complaint::Hex)?;
        bytes.extend_from_slice(&piece)?;
    }
    Ok(bytes)
}

/// The bytes of a text and a newline.
pub(crate) fn line_of(alloc: Global, text: &str) -> Result<Vec<u8>, AllocError> {
    let mut bytes = text.as_bytes().to_vec(alloc)?;
    bytes.push(b'\n')?;
    Ok(bytes)
}

/// The bytes of a text in which `\n` stands for a newline and `\xff` for a byte.
pub(crate) fn escaped_of(alloc: Global, text: &str) -> Result<Vec<u8>, Complaint> {
    let mut bytes = Vec::new(alloc);
    for (place, piece) in text.split('\\').enumerate() {
        if place == 0 {
            bytes.extend_from_slice(piece.as_bytes())?;
        } else {
            add_escaped(alloc, piece.as_bytes(), &mut bytes)?;
        }
    }
    Ok(bytes)
}

// Adds what stands behind a backslash.
fn add_escaped(alloc: Global, piece: &[u8], bytes: &mut Vec<u8>) -> Result<(), Complaint> {
    match piece {
        [b'n', rest @ ..] => {
            bytes.push(b'\n')?;
            bytes.extend_from_slice(rest)?;
        }
        [b'x', high, low, rest @ ..] => {
            let byte = hex::decode(alloc, &[*high, *low]).map_err(|_| Complaint::Escape)?;
            bytes.extend_from_slice(&byte)?;
            bytes.extend_from_slice(rest)?;
        }
        _ => return Err(Complaint::Escape),
    }
    Ok(())
}
