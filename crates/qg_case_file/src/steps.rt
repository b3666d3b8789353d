// The steps that are no runs.
use crate::numbers::{choice_of, number_of, two_numbers_of};
use crate::text::{first_word, hex_of};
use crate::{Complaint, Crashes, Step};
use qg_disk::Tear;
use std::alloc::Global;

// A place and the bytes there.
fn bytes_at(alloc: Global, text: &str) -> Result<(u64, Vec<u8>), Complaint> {
    let (at, bytes) = first_word(text);
    Ok((number_of(at)?, hex_of(alloc, bytes)?))
}

// A byte in hex, so many times.
fn filled(alloc: Global, text: &str) -> Result<(u64, Vec<u8>), Complaint> {
    let (at, rest) = first_word(text);
    let (count, byte) = first_word(rest);
    let piece = hex_of(alloc, byte)?;
    let mut bytes = Vec::new(alloc);
    for _ in 0..number_of(count)? {
        bytes.extend_from_slice(&piece)?;
    }
    Ok((number_of(at)?, bytes))
}

// So many bytes of 0.
fn zeros(alloc: Global, count: u64) -> Result<Vec<u8>, Complaint> {
    let mut bytes = Vec::new(alloc);
    for _ in 0..count {
        bytes.push(0)?;
    }
    Ok(bytes)
}

// What a crash does to a change: nothing, all of it, or a write's first bytes.
fn tear_of(text: &str) -> Result<Tear, Complaint> {
    match text {
        "old" => Ok(Tear::Old),
        "new" => Ok(Tear::New),
        _ => {
            let count = text.parse::<u64>().map_err(|_| Complaint::Tear)?;
            Ok(Tear::Split(count as usize))
        }
    }
}

// Crashes that do what the words say, each of them in its turn.
fn crashes_of(alloc: Global, text: &str) -> Result<Crashes, Complaint> {
    let mut crashes = Crashes::new(alloc);
    for word in text.split(' ') {
        if word == "lost" {
            crashes.losses = true;
        } else {
            let tear = tear_of(word)?;
            crashes.tears.push(tear)?;
        }
    }
    Ok(crashes)
}

// The step of a line that is of crashes.
fn crash_step_of(alloc: Global, word: &str, text: &str) -> Result<Step, Complaint> {
    let (first, rest) = first_word(text);
    match word {
        "crash" => Ok(Step::Crash {
            call: choice_of(first)?,
            tear: tear_of(rest)?,
        }),
        "lose" => Ok(Step::Loss {
            call: choice_of(first)?,
            change: choice_of(rest)?,
        }),
        "crashes" => Ok(Step::Crashes(crashes_of(alloc, text)?)),
        _ => Err(Complaint::Word),
    }
}

/// The step of a line.
pub(crate) fn step_of(alloc: Global, word: &str, text: &str) -> Result<Step, Complaint> {
    match word {
        "set" => {
            let (at, bytes) = bytes_at(alloc, text)?;
            Ok(Step::Set { at, bytes })
        }
        "fill" => {
            let (at, bytes) = filled(alloc, text)?;
            Ok(Step::Set { at, bytes })
        }
        "checksum" => {
            let (at, len) = two_numbers_of(text)?;
            Ok(Step::Checksum { at, len })
        }
        "bytes" => {
            let (at, bytes) = bytes_at(alloc, text)?;
            Ok(Step::Bytes { at, bytes })
        }
        "zeros" => {
            let (at, count) = two_numbers_of(text)?;
            let bytes = zeros(alloc, count)?;
            Ok(Step::Bytes { at, bytes })
        }
        "cut" => Ok(Step::Cut {
            len: number_of(text)?,
        }),
        "extend" => Ok(Step::Extend {
            len: number_of(text)?,
        }),
        "length" => Ok(Step::Length {
            len: number_of(text)?,
        }),
        _ => crash_step_of(alloc, word, text),
    }
}
