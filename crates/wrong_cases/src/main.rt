//! Judges cases that are wrong on purpose, over two small programs of its own, and prints what is told of them.
#![tactic(auto)]

use anyhow::{Result, anyhow};
use qg_case_file::{Case, case_names, case_text, read_case};
use qg_cases::{CaseDisk, Cases, Program, Report, judge_case};
use qg_disk::Disk;
use qg_edge::{MemSink, MemSource, Sink, Source};
use std::rt::Files;

/// It writes two bytes at 4, makes sure of them, takes eight bytes of the source and puts them. Its status is 6, 4 or 5
/// where that fails, and 2 without words.
struct Echo;

// The status of a call of that program.
fn status_of<D: Disk>(disk: &mut D, source: &mut MemSource, sink: &mut MemSink) -> u8 {
    if disk.write_at(4, &[0xab, 0xcd]).is_err() || disk.sync().is_err() {
        return 6;
    }
    let mut bytes = [0; 8];
    let Ok(count) = source.take(&mut bytes) else {
        return 4;
    };
    match sink.put(&bytes[..count]) {
        Ok(()) => 0,
        Err(_) => 5,
    }
}

/// Where a counter keeps its number first.
const FIRST_PLACE: u64 = 65536;

/// Where it keeps it besides.
const SECOND_PLACE: u64 = 67108864;

/// It counts, by a digit that it keeps at two places. With the word `count` it writes one more than the first place has
/// at both, one behind the other, and makes sure before, between and behind. With any other word it puts the digit of
/// the place of which the source has the number, 1 or 2. Its status is 6, 4 or 5 where that fails, and 2 where there is
/// no such place.
struct Counter;

// The digit at a place, and 0 where the disk ends before it.
fn digit_at<D: Disk>(disk: &mut D, at: u64) -> u8 {
    if disk.len() <= at {
        return b'0';
    }
    let mut bytes = [b'0'];
    match disk.read(at, &mut bytes) {
        Ok(()) => bytes[0],
        Err(_) => b'0',
    }
}

// The status of a call that counts.
fn count<D: Disk>(disk: &mut D) -> u8 {
    let bytes = [digit_at(disk, FIRST_PLACE).saturating_add(1)];
    if disk.sync().is_err() || disk.write_at(FIRST_PLACE, &bytes).is_err() {
        return 6;
    }
    if disk.sync().is_err() || disk.write_at(SECOND_PLACE, &bytes).is_err() {
        return 6;
    }
    match disk.sync() {
        Ok(()) => 0,
        Err(_) => 6,
    }
}

// The status of a call that puts the digit of a place.
fn put_digit<D: Disk>(disk: &mut D, source: &mut MemSource, sink: &mut MemSink) -> u8 {
    let mut bytes = [0];
    if source.take(&mut bytes).is_err() {
        return 4;
    }
    let digit = match bytes[0] {
        b'1' => digit_at(disk, FIRST_PLACE),
        b'2' => digit_at(disk, SECOND_PLACE),
        _ => return 2,
    };
    match sink.put(&[digit]) {
        Ok(()) => 0,
        Err(_) => 5,
    }
}

impl Program for Counter {
    fn call(
        &self,
        words: &Vec<String>,
        disk: &mut CaseDisk,
        source: &mut MemSource,
        sink: &mut MemSink,
    ) -> u8 {
        match words.first() {
            Some(word) if word.as_str() == "count" => count(disk),
            _ => put_digit(disk, source, sink),
        }
    }
}

impl Program for Echo {
    fn call(
        &self,
        words: &Vec<String>,
        disk: &mut CaseDisk,
        source: &mut MemSource,
        sink: &mut MemSink,
    ) -> u8 {
        match words.first() {
            Some(_) => status_of(disk, source, sink),
            None => 2,
        }
    }
}

// Judges a file, and prints what is told of it and how many of its parts hold and do not. One whose name begins with
// `crash` is judged over the counter.
fn show_case<R: Print + AllocGlobal>(rt: &R, case: &Case) -> Result<()> {
    let alloc = rt.alloc();
    let cases = Cases::new(alloc);
    let mut report = Report::new(alloc);
    let judged = if case.name.as_str().starts_with("crash") {
        judge_case(alloc, &Counter, &cases, case, &mut report)
    } else {
        judge_case(alloc, &Echo, &cases, case, &mut report)
    };
    judged.map_err(|_| anyhow!("memory was refused"))?;
    let (name, held, failed) = (&case.name, report.held(), report.failed());
    print!(rt; "{}", report.text())?;
    println!(rt; "{name}: {held} hold, {failed} fail")?;
    Ok(())
}

fn main(rt: HostRuntime) -> Result<()> {
    for name in case_names(&rt)?.iter() {
        let text = case_text(&rt, name.as_str())?;
        match read_case(rt.alloc(), name.as_str(), text.as_str()) {
            Ok(case) => show_case(&rt, &case)?,
            Err(fault) => println!(rt; "{name}: {fault}")?,
        }
    }
    Ok(())
}
