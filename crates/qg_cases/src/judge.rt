// The parts of a file are run and judged.
use crate::change::{bytes_at, cut, extend, make_checksum, set};
use crate::crash::{crashed, crashed_without};
use crate::crashes::judge_crashes;
use crate::run::{call_number, judge_run};
use crate::{Program, Report};
use qg_case_file::{Case, NoMemory, Part, Step};
use qg_disk::{Disk, MemDisk};
use std::alloc::Global;

/// All files that were read (this project's own).
#[derive(Drop)]
pub struct Cases {
    cases: Vec<Case>,
}

impl Cases {
    /// No file.
    pub fn new(alloc: Global) -> Cases {
        Cases {
            cases: Vec::new(alloc),
        }
    }

    /// Adds a file.
    pub fn add(&mut self, case: Case) -> Result<(), NoMemory> {
        self.cases.push(case)?;
        Ok(())
    }

    /// The files.
    pub fn all(&self) -> &[Case] {
        &self.cases
    }

    // The last part of a file.
    fn last_part(&self, name: &str) -> Option<&Part> {
        let case = self.cases.iter().find(|case| case.name.as_str() == name)?;
        case.parts.last()
    }
}

// The disk of a part.
#[derive(Drop)]
struct DiskOfPart {
    disk: MemDisk,
    // How many calls it had answered when the last run over it began.
    before: u64,
}

impl DiskOfPart {
    // A disk over which no run has begun.
    fn new(disk: MemDisk) -> DiskOfPart {
        let before = disk.calls().len() as u64;
        DiskOfPart { disk, before }
    }
}

// Tells what could not be done.
fn done(is_done: bool, report: &mut Report) -> Result<(), NoMemory> {
    if !is_done {
        report.tell("this can't be done to the disk")?;
    }
    Ok(())
}

// Bytes of the disk, against those wanted: the first one that differs is told.
fn judge_bytes(
    alloc: Global,
    disk: &mut MemDisk,
    at: u64,
    wanted: &[u8],
    report: &mut Report,
) -> Result<(), NoMemory> {
    let Some(bytes) = bytes_at(alloc, disk, at, wanted.len() as u64)? else {
        report.tell("the disk ends before these bytes")?;
        return Ok(());
    };
    for (place, (byte, other)) in wanted.iter().zip(bytes.iter()).enumerate() {
        if byte != other {
            let place = at.saturating_add(place as u64);
            let text = format!(in alloc; "byte {place}: wanted {byte:02x}, came {other:02x}")?;
            report.tell(text.as_str())?;
            return Ok(());
        }
    }
    Ok(())
}

// The length of the disk, against the one wanted.
fn judge_length(
    alloc: Global,
    disk: &MemDisk,
    len: u64,
    report: &mut Report,
) -> Result<(), NoMemory> {
    let wanted = len.to_string(alloc)?;
    let came = disk.len().to_string(alloc)?;
    report.compare(alloc, "length", wanted.as_str(), came.as_str())?;
    Ok(())
}

// Goes on with what a crash left, where there is such a crash.
fn go_on(
    left: Option<MemDisk>,
    judged: &mut DiskOfPart,
    report: &mut Report,
) -> Result<(), NoMemory> {
    match left {
        Some(disk) => {
            *judged = DiskOfPart::new(disk);
            Ok(())
        }
        None => done(false, report),
    }
}

// Does a step, and judges what came of it.
fn judge_step<P: Program>(
    alloc: Global,
    program: &P,
    step: &Step,
    each: u64,
    judged: &mut DiskOfPart,
    report: &mut Report,
) -> Result<(), NoMemory> {
    match step {
        Step::Empty => {
            *judged = DiskOfPart::new(MemDisk::new(alloc));
            Ok(())
        }
        Step::Run(run) => {
            let before = judged.disk.calls().len() as u64;
            judged.before = before;
            judge_run(alloc, program, run, each, &mut judged.disk, report)
        }
        Step::Crash { call, tear } => {
            let count = call_number(*call, each, judged.before);
            let left = crashed(alloc, &judged.disk, count, *tear)?;
            go_on(left, judged, report)
        }
        Step::Loss { call, change } => {
            let count = call_number(*call, each, judged.before);
            let lost = call_number(*change, each, 0);
            let left = crashed_without(alloc, &judged.disk, count, lost)?;
            go_on(left, judged, report)
        }
        Step::Crashes(crashes) => {
            let before = judged.before;
            judge_crashes(alloc, program, crashes, &judged.disk, before, report)
        }
        Step::Set { at, bytes } => done(set(&mut judged.disk, *at, bytes), report),
        Step::Checksum { at, len } => {
            let is_done = make_checksum(alloc, &mut judged.disk, *at, *len)?;
            done(is_done, report)
        }
        Step::Cut { len } => done(cut(&mut judged.disk, *len), report),
        Step::Extend { len } => done(extend(&mut judged.disk, *len), report),
        Step::Bytes { at, bytes } => judge_bytes(alloc, &mut judged.disk, *at, bytes, report),
        Step::Length { len } => judge_length(alloc, &judged.disk, *len, report),
    }
}

// Does the steps of a part, for the number `each`.
fn judge_steps<P: Program>(
    alloc: Global,
    program: &P,
    part: &Part,
    each: u64,
    judged: &mut DiskOfPart,
    report: &mut Report,
) -> Result<(), NoMemory> {
    for (line, step) in part.steps.iter() {
        report.at(*line);
        judge_step(alloc, program, step, each, judged, report)?;
    }
    Ok(())
}

// The parts on whose disks a part goes on, the nearest first.
fn earlier_parts<'a>(
    alloc: Global,
    cases: &'a Cases,
    part: &'a Part,
    report: &mut Report,
) -> Result<Vec<&'a Part>, NoMemory> {
    let mut parts = Vec::new(alloc);
    let mut nearest = part;
    for _ in 0..cases.cases.len().saturating_add(1) {
        let Some(name) = &nearest.after else {
            return Ok(parts);
        };
        let Some(earlier) = cases.last_part(name.as_str()) else {
            report.tell("there is no file of the name behind after")?;
            return Ok(parts);
        };
        parts.push(earlier)?;
        nearest = earlier;
    }
    report.tell("the files behind after lead in a circle")?;
    Ok(parts)
}

// Runs a part for a number.
fn judge_part<P: Program>(
    alloc: Global,
    program: &P,
    cases: &Cases,
    case: &Case,
    part: &Part,
    each: u64,
    report: &mut Report,
) -> Result<(), NoMemory> {
    report.begin(case.name.as_str())?;
    if part.steps.is_empty() {
        report.tell("a part has no step")?;
    }
    let mut judged = DiskOfPart::new(MemDisk::new(alloc));
    let earlier = earlier_parts(alloc, cases, part, report)?;
    for before in earlier.iter().rev() {
        let mut unread = Report::new(alloc);
        judge_steps(alloc, program, before, each, &mut judged, &mut unread)?;
    }
    judge_steps(alloc, program, part, each, &mut judged, report)?;
    report.end();
    Ok(())
}

// Runs a part for each of its numbers.
fn judge_each<P: Program>(
    alloc: Global,
    program: &P,
    cases: &Cases,
    case: &Case,
    part: &Part,
    report: &mut Report,
) -> Result<(), NoMemory> {
    let (first, last) = match part.each {
        Some(numbers) => numbers,
        None => (0, 0),
    };
    for each in first..last.saturating_add(1) {
        judge_part(alloc, program, cases, case, part, each, report)?;
    }
    Ok(())
}

/// Does what a file says and reports what came.
pub fn judge_case<P: Program>(
    alloc: Global,
    program: &P,
    cases: &Cases,
    case: &Case,
    report: &mut Report,
) -> Result<(), NoMemory> {
    for part in case.parts.iter() {
        judge_each(alloc, program, cases, case, part, report)?;
    }
    Ok(())
}
