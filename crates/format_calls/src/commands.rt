// Calls on the lines of a script. A group is told by its number.
use call_lines::{Fault, add_word, bytes_of, told};
use qg_num::{Command, GroupId, RootId, Which};
use qg_script::parse_line;
use std::alloc::Global;

/// A word and numbers.
fn told_numbers(alloc: Global, word: &str, numbers: &[u64]) -> Result<String, Fault> {
    let mut answer = String::from_str(alloc, word)?;
    for number in numbers {
        add_word(&mut answer, format!(in alloc; "{number}")?.as_str())?;
    }
    Ok(answer)
}

/// A snapshot: the subvolume, and how many groups it inherits, with the first and the last.
fn told_snap(alloc: Global, sub: RootId, groups: &[GroupId]) -> Result<String, Fault> {
    let (Some(first), Some(last)) = (groups.first(), groups.last()) else {
        return told_numbers(alloc, "snap", &[sub.value()]);
    };
    let numbers = [
        sub.value(),
        groups.len() as u64,
        first.number(),
        last.number(),
    ];
    told_numbers(alloc, "snap", &numbers)
}

/// A limit that is set or taken away.
fn told_limit(alloc: Global, group: u64, which: Which, max: Option<u64>) -> Result<String, Fault> {
    match (which, max) {
        (Which::Rfer, Some(max)) => told_numbers(alloc, "limit-rfer", &[group, max]),
        (Which::Excl, Some(max)) => told_numbers(alloc, "limit-excl", &[group, max]),
        (Which::Rfer, None) => told_numbers(alloc, "unlimit-rfer", &[group]),
        (Which::Excl, None) => told_numbers(alloc, "unlimit-excl", &[group]),
    }
}

/// A command on quota: its word, and its numbers.
fn told_quota_command(alloc: Global, command: &Command) -> Result<String, Fault> {
    match command {
        Command::QuotaOn => told(alloc, "quota-on"),
        Command::QuotaOff => told(alloc, "quota-off"),
        Command::GroupCreate { group } => told_numbers(alloc, "create", &[group.number()]),
        Command::GroupDestroy { group } => told_numbers(alloc, "destroy", &[group.number()]),
        Command::Assign { member, parent } => {
            told_numbers(alloc, "assign", &[member.number(), parent.number()])
        }
        Command::Remove { member, parent } => {
            told_numbers(alloc, "remove", &[member.number(), parent.number()])
        }
        Command::Limit { group, which, max } => told_limit(alloc, group.number(), *which, *max),
        Command::Show => told(alloc, "show"),
        _ => told(alloc, "other"),
    }
}

/// A command: its word, and its numbers.
pub(crate) fn told_command(alloc: Global, command: &Command) -> Result<String, Fault> {
    match command {
        Command::Write { sub, ino, off, len } => {
            told_numbers(alloc, "write", &[sub.value(), ino.value(), *off, *len])
        }
        Command::Clone {
            sub,
            ino,
            off,
            len,
            to_sub,
            to_ino,
            to_off,
        } => {
            let from = [sub.value(), ino.value(), *off, *len];
            let to = [to_sub.value(), to_ino.value(), *to_off];
            told_numbers(alloc, told_numbers(alloc, "clone", &from)?.as_str(), &to)
        }
        Command::Truncate { sub, ino, size } => {
            told_numbers(alloc, "truncate", &[sub.value(), ino.value(), *size])
        }
        Command::Unlink { sub, ino } => {
            told_numbers(alloc, "unlink", &[sub.value(), ino.value()])
        }
        Command::Snap { sub, groups } => told_snap(alloc, *sub, groups.as_slice()),
        Command::Delete { sub } => told_numbers(alloc, "delete", &[sub.value()]),
        Command::Commit => told(alloc, "commit"),
        command => told_quota_command(alloc, command),
    }
}

/// The command of a line, or `none`.
fn told_line(alloc: Global, line: &[u8]) -> Result<String, Fault> {
    match parse_line(alloc, line)? {
        Some(command) => told_command(alloc, &command),
        None => told(alloc, "none"),
    }
}

/// The command of a line that has a text so many times behind its front, and then an end.
fn told_repeated(alloc: Global, text: &str) -> Result<String, Fault> {
    let mut parts = text.split('|');
    let (Some(front), Some(count), Some(text)) = (parts.next(), parts.next(), parts.next()) else {
        return Err(Fault::Call);
    };
    let count = count.parse::<u64>().map_err(|_| Fault::Number)?;
    let mut line = String::from_str(alloc, front)?;
    for _ in 0..count {
        line.push_str(text)?;
    }
    line.push_str(parts.next().unwrap_or(""))?;
    told_line(alloc, line.as_bytes())
}

/// Makes a call.
pub(crate) fn answer(alloc: Global, verb: &str, text: &str) -> Result<String, Fault> {
    match verb {
        "line" => told_line(alloc, text.as_bytes()),
        "hex" => told_line(alloc, &bytes_of(alloc, text)?),
        "repeated" => told_repeated(alloc, text),
        _ => Err(Fault::Call),
    }
}
