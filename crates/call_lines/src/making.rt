// The calls of files are made.
use crate::Fault;
use crate::words::without_comment;
use anyhow::{Context, Result};
use std::alloc::Global;
use std::fs;
use std::process::ExitCode;
use std::rt::Files;

/// What the calls of a file are made on: each has what the calls before it left.
pub trait Calls {
    /// What the first call of a file is made on.
    fn begin(alloc: Global) -> Result<Self, Fault>;

    /// Makes a call of the file of a name, and tells its answer.
    fn answer(&mut self, alloc: Global, name: &str, call: &str) -> Result<String, Fault>;
}

/// Makes the call of a line, and prints it if it is answered otherwise than wanted.
fn make_call<C: Calls, R: Print + AllocGlobal>(
    rt: &R,
    calls: &mut C,
    name: &str,
    line: &str,
) -> Result<bool> {
    let (call, wanted) = line.split_once(" => ").unwrap_or((line, "done"));
    let came = calls.answer(rt.alloc(), name, call)?;
    if came.as_str() == wanted {
        return Ok(true);
    }
    println!(rt; "{name}: {call} => {wanted}, and {came} came")?;
    Ok(false)
}

/// Makes the calls of a file. Answers how many are answered otherwise than wanted.
fn make_calls<C: Calls + Drop, R: Print + Files + AllocGlobal>(rt: &R, name: &str) -> Result<u64> {
    let path = format!(in rt.alloc(); "{name}.calls")?;
    let text = fs::read_to_string(rt, path.as_str()).context(format_args!("{path}"))?;
    let mut calls = C::begin(rt.alloc())?;
    let (mut right, mut wrong) = (0u64, 0u64);
    for line in text.lines() {
        let line = without_comment(line);
        if line.is_empty() {
            continue;
        }
        if make_call(rt, &mut calls, name, line).context(format_args!("{name}: {line}"))? {
            right = right.saturating_add(1);
        } else {
            wrong = wrong.saturating_add(1);
        }
    }
    println!(rt; "{name}: {right} calls as wanted")?;
    Ok(wrong)
}

/// Makes the calls of the files of these names, which lie in the folder as `NAME.calls`. It prints each that is
/// answered otherwise than its line wants, and of each file how many are answered as wanted.
pub fn make_all<C: Calls + Drop, R: Print + Files + AllocGlobal>(
    rt: &R,
    names: &[&str],
) -> Result<ExitCode> {
    let mut wrong = 0u64;
    for name in names {
        wrong = wrong.saturating_add(make_calls::<C, R>(rt, name)?);
    }
    match wrong {
        0 => Ok(ExitCode::SUCCESS),
        _ => Ok(ExitCode::FAILURE),
    }
}
