// One call of the program, and whether what came of it was wanted.
use crate::Report;
use crate::calls::{call_texts, is_read};
use crate::disk::CaseDisk;
use qg_case_file::{CaseRun, NoMemory, Number, Plan, Wanted};
use qg_disk::MemDisk;
use qg_edge::{MemSink, MemSource};
use std::alloc::Global;
use std::mem;

/// What is printed in place of a line that is no text.
const NO_TEXT: &str = "bytes that are no text";

/// The program that the cases are of (this project's own).
pub trait Program {
    /// Does what the words say, and answers the number of its status.
    fn call(
        &self,
        words: &Vec<String>,
        disk: &mut CaseDisk,
        source: &mut MemSource,
        sink: &mut MemSink,
    ) -> u8;
}

/// The number of a call, where `made` were made before.
pub(crate) fn call_number(number: Number, each: u64, made: u64) -> u64 {
    match number {
        Number::Given(number) => made.saturating_add(number),
        Number::Each => made.saturating_add(each),
    }
}

// The numbers of some calls.
fn call_numbers(
    alloc: Global,
    numbers: &[Number],
    each: u64,
    made: u64,
) -> Result<Vec<u64>, NoMemory> {
    let mut calls = Vec::new(alloc);
    for number in numbers {
        calls.push(call_number(*number, each, made))?;
    }
    Ok(calls)
}

// Tells a disk which calls of a run are to fail.
fn plan_disk(alloc: Global, plan: &Plan, each: u64, disk: &mut MemDisk) -> Result<(), NoMemory> {
    let made = disk.calls().len() as u64;
    disk.fail_at(call_numbers(alloc, &plan.disk, each, made)?);
    if let Some(last) = plan.last {
        disk.stop_after(call_number(last, each, made));
    }
    Ok(())
}

// Tells a disk that no call is to fail.
fn clear_plan(alloc: Global, disk: &mut MemDisk) {
    disk.fail_at(Vec::new(alloc));
    disk.stop_after(u64::MAX);
}

/// The first line in which what was put differs from what was wanted, in words.
pub(crate) fn difference(
    alloc: Global,
    wanted: &[u8],
    came: &[u8],
) -> Result<Option<String>, NoMemory> {
    if wanted == came {
        return Ok(None);
    }
    let mut rest = came.split(|byte| *byte == b'\n');
    let mut number = 0u64;
    for line in wanted.split(|byte| *byte == b'\n') {
        number = number.saturating_add(1);
        let other = rest.next();
        if other != Some(line) {
            return Ok(Some(line_text(alloc, number, line, other)?));
        }
    }
    Ok(Some(String::from_str(alloc, "more was put than is wanted")?))
}

// A line that differs, in words.
fn line_text(
    alloc: Global,
    number: u64,
    wanted: &[u8],
    came: Option<&[u8]>,
) -> Result<String, NoMemory> {
    let wanted = str::from_utf8(wanted).unwrap_or(NO_TEXT);
    let came = match came {
        Some(line) => str::from_utf8(line).unwrap_or(NO_TEXT),
        None => "its end",
    };
    let text = format!(in alloc; "line {number} of the output: wanted {wanted}, came {came}")?;
    Ok(text)
}

// What was put, against what was wanted: the first line that differs is told.
fn judge_put(
    alloc: Global,
    wanted: &[u8],
    came: &[u8],
    report: &mut Report,
) -> Result<(), NoMemory> {
    if let Some(text) = difference(alloc, wanted, came)? {
        report.tell(text.as_str())?;
    }
    Ok(())
}

// The calls of the disk since `made` were made, against those wanted.
fn judge_calls(
    alloc: Global,
    wanted: &Wanted,
    each: u64,
    disk: &MemDisk,
    made: usize,
    report: &mut Report,
) -> Result<(), NoMemory> {
    let calls = match disk.calls().get(made..) {
        Some(calls) => calls,
        None => &[],
    };
    if let Some(count) = wanted.count {
        let wanted = call_number(count, each, 0).to_string(alloc)?;
        let came = calls.len().to_string(alloc)?;
        report.compare(
            alloc,
            "how many calls of the disk",
            wanted.as_str(),
            came.as_str(),
        )?;
    }
    if let Some(texts) = &wanted.calls {
        let has_reads = texts.iter().any(|text| is_read(text.as_str()));
        let came = call_texts(alloc, calls, has_reads)?;
        let came = format!(in alloc; "{came:?}")?;
        let wanted = format!(in alloc; "{texts:?}")?;
        report.compare(alloc, "calls of the disk", wanted.as_str(), came.as_str())?;
    }
    Ok(())
}

// The disk that a run is called over, which made so many calls before: where bytes are to change, they do.
fn disk_of(
    alloc: Global,
    run: &CaseRun,
    each: u64,
    made: u64,
    disk: MemDisk,
) -> Result<CaseDisk, NoMemory> {
    match &run.plan.flip {
        None => Ok(CaseDisk::new(alloc, disk)),
        Some(flip) => {
            let first = call_number(flip.call, each, made);
            Ok(CaseDisk::changing(disk, first, flip.at, flip.bytes.clone()?))
        }
    }
}

// Calls the program over a disk that made so many calls before. Bytes that change are as they were afterwards.
fn call_planned<P: Program>(
    alloc: Global,
    program: &P,
    run: &CaseRun,
    each: u64,
    made: u64,
    disk: &mut MemDisk,
    source: &mut MemSource,
    sink: &mut MemSink,
) -> Result<u8, NoMemory> {
    let held = mem::replace(disk, MemDisk::new(alloc));
    let mut over = disk_of(alloc, run, each, made, held)?;
    let status = program.call(&run.words, &mut over, source, sink);
    *disk = over.into_disk();
    Ok(status)
}

/// Calls the program over a disk, for the number `each`, and judges what came.
pub(crate) fn judge_run<P: Program>(
    alloc: Global,
    program: &P,
    run: &CaseRun,
    each: u64,
    disk: &mut MemDisk,
    report: &mut Report,
) -> Result<(), NoMemory> {
    let made = disk.calls().len();
    plan_disk(alloc, &run.plan, each, disk)?;
    let mut source = MemSource::new(run.input.clone()?);
    source.fail_at(call_numbers(alloc, &run.plan.source, each, 0)?);
    let mut sink = MemSink::new(alloc);
    sink.fail_at(call_numbers(alloc, &run.plan.sink, each, 0)?);
    let status = call_planned(
        alloc,
        program,
        run,
        each,
        made as u64,
        disk,
        &mut source,
        &mut sink,
    )?;
    clear_plan(alloc, disk);
    let wanted = run.wanted.status.to_string(alloc)?;
    let came = status.to_string(alloc)?;
    report.compare(alloc, "status", wanted.as_str(), came.as_str())?;
    judge_put(alloc, &run.wanted.put, sink.bytes(), report)?;
    judge_calls(alloc, &run.wanted, each, disk, made, report)
}
