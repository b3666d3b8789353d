// What the lines of a run add to it.
use crate::numbers::{choice_of, choices_of, number_of, small_number_of};
use crate::text::{escaped_of, first_word, hex_of, line_of};
use crate::{CaseRun, Complaint, Crashes, Flip};
use std::alloc::Global;

/// The bytes that a line of input or of output stands for: `<` and `>` a line, `<<` and `>>` bytes without a newline.
pub(crate) fn piece_of(alloc: Global, mark: &str, text: &str) -> Result<Vec<u8>, Complaint> {
    match mark {
        "<" | ">" => Ok(line_of(alloc, text)?),
        "<<" | ">>" => escaped_of(alloc, text),
        _ => Err(Complaint::Word),
    }
}

// Adds bytes so many times.
fn add_times(bytes: &mut Vec<u8>, piece: &[u8], times: u64) -> Result<(), Complaint> {
    for _ in 0..times {
        bytes.extend_from_slice(piece)?;
    }
    Ok(())
}

/// Adds a line of input or of output to a run, so many times.
pub(crate) fn add_piece(
    alloc: Global,
    run: &mut CaseRun,
    mark: &str,
    text: &str,
    times: u64,
) -> Result<(), Complaint> {
    let piece = piece_of(alloc, mark, text)?;
    if mark.starts_with('<') {
        add_times(&mut run.input, &piece, times)
    } else {
        add_times(&mut run.wanted.put, &piece, times)
    }
}

/// Adds a line of input to crashes, or one of output to the last of their states, so many times.
pub(crate) fn add_piece_of_crashes(
    alloc: Global,
    crashes: &mut Crashes,
    mark: &str,
    text: &str,
    times: u64,
) -> Result<(), Complaint> {
    let piece = piece_of(alloc, mark, text)?;
    if mark.starts_with('<') {
        return add_times(&mut crashes.input, &piece, times);
    }
    match crashes.states.last_mut() {
        Some(state) => add_times(state, &piece, times),
        None => Err(Complaint::NoState),
    }
}

/// Adds a call of the disk that is wanted, or the first time that none is.
pub(crate) fn add_call(alloc: Global, run: &mut CaseRun, text: &str) -> Result<(), Complaint> {
    let mut calls = match run.wanted.calls.take() {
        Some(calls) => calls,
        None => Vec::new(alloc),
    };
    if text != "none" {
        calls.push(String::from_str(alloc, text)?)?;
    }
    run.wanted.calls = Some(calls);
    Ok(())
}

// The calls of an object that are to fail.
fn add_failing(alloc: Global, run: &mut CaseRun, text: &str) -> Result<(), Complaint> {
    let (object, numbers) = first_word(text);
    let numbers = choices_of(alloc, numbers)?;
    match object {
        "disk" => run.plan.disk = numbers,
        "source" => run.plan.source = numbers,
        "sink" => run.plan.sink = numbers,
        _ => return Err(Complaint::Word),
    }
    Ok(())
}

// The bytes of the disk that change, and from which call on.
fn flip_of(alloc: Global, text: &str) -> Result<Flip, Complaint> {
    let (call, rest) = first_word(text);
    let (at, bytes) = first_word(rest);
    Ok(Flip {
        call: choice_of(call)?,
        at: number_of(at)?,
        bytes: hex_of(alloc, bytes)?,
    })
}

/// Adds what another line of a run says.
pub(crate) fn add_to_run(
    alloc: Global,
    run: &mut CaseRun,
    word: &str,
    text: &str,
) -> Result<(), Complaint> {
    match word {
        "fail" => add_failing(alloc, run, text)?,
        "stop" => run.plan.last = Some(choice_of(text)?),
        "flip" => run.plan.flip = Some(flip_of(alloc, text)?),
        "status" => run.wanted.status = small_number_of(text)?,
        "calls" => run.wanted.count = Some(choice_of(text)?),
        "@" => add_call(alloc, run, text)?,
        _ => return Err(Complaint::Word),
    }
    Ok(())
}
