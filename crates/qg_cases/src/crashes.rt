// All crashes of a run, and whether the images that they leave are wanted.
use crate::crash::{crashed, crashed_without, first_calls, unsure_calls};
use crate::disk::CaseDisk;
use crate::run::difference;
use crate::{Program, Report};
use qg_case_file::{Crashes, NoMemory, words_of};
use qg_disk::{Call, MemDisk, Request, Tear};
use qg_edge::{MemSink, MemSource};
use std::alloc::Global;

/// The place of the superblock that a commit writes first.
const FIRST_PLACE: u64 = 65536;

// How far a run has come.
#[derive(Drop)]
struct Moment {
    // How many calls it made.
    calls: u64,
    // How many commits it has begun to write at the first place, each right behind a sync.
    begun: u64,
    // Of how many of these a sync has made sure since.
    sure: u64,
    // Whether the last call was a sync that was answered Ok.
    is_behind_sync: bool,
}

impl Moment {
    // The beginning of a run.
    fn new() -> Moment {
        Moment {
            calls: 0,
            begun: 0,
            sure: 0,
            is_behind_sync: false,
        }
    }

    // One more call was made.
    fn pass(&mut self, call: &Call) {
        self.calls = self.calls.saturating_add(1);
        let mut is_sync = false;
        match &call.request {
            Request::Write { at, .. } => {
                if self.is_behind_sync && *at == FIRST_PLACE {
                    self.begun = self.begun.saturating_add(1);
                }
            }
            Request::Sync => {
                if !call.failed {
                    is_sync = true;
                    self.sure = self.begun;
                }
            }
            Request::Read { .. } | Request::Cut { .. } => {}
        }
        self.is_behind_sync = is_sync;
    }
}

// Whether a call leaves all as it was.
fn is_read(call: &Call) -> bool {
    match &call.request {
        Request::Read { .. } => true,
        Request::Write { .. } | Request::Cut { .. } | Request::Sync => false,
    }
}

// What a crash does, in words.
fn tear_text(alloc: Global, tear: Tear) -> Result<String, NoMemory> {
    let text = match tear {
        Tear::Old => String::from_str(alloc, "old")?,
        Tear::New => String::from_str(alloc, "new")?,
        Tear::Split(count) => format!(in alloc; "split at {count}")?,
    };
    Ok(text)
}

// Whether this was to be put over an image at one of the states that a crash at a moment may leave.
fn is_wanted(states: &[Vec<u8>], moment: &Moment, came: &[u8]) -> bool {
    let mut number = 0u64;
    for state in states {
        if moment.sure <= number && number <= moment.begun && state.as_slice() == came {
            return true;
        }
        number = number.saturating_add(1);
    }
    false
}

// How what was put differs from what was wanted at the first state that a crash at a moment may leave.
fn difference_at(
    alloc: Global,
    states: &[Vec<u8>],
    moment: &Moment,
    came: &[u8],
) -> Result<Option<String>, NoMemory> {
    match states.get(moment.sure as usize) {
        Some(state) => difference(alloc, state, came),
        None => difference(alloc, &[], came),
    }
}

// How what comes of a run over an image that a crash left differs from what is wanted.
fn difference_of_run<P: Program>(
    alloc: Global,
    program: &P,
    crashes: &Crashes,
    moment: &Moment,
    left: MemDisk,
) -> Result<Option<String>, NoMemory> {
    let words = words_of(alloc, "run")?;
    let mut disk = CaseDisk::new(alloc, left);
    let mut source = MemSource::new(crashes.input.clone()?);
    let mut sink = MemSink::new(alloc);
    let status = program.call(&words, &mut disk, &mut source, &mut sink);
    if status != 0 {
        let text = format!(in alloc; "status: wanted 0, came {status}")?;
        return Ok(Some(text));
    }
    let came = sink.bytes();
    if is_wanted(&crashes.states, moment, came) {
        return Ok(None);
    }
    difference_at(alloc, &crashes.states, moment, came)
}

// Judges what a crash left that did what these words say.
fn judge_image<P: Program>(
    alloc: Global,
    program: &P,
    crashes: &Crashes,
    moment: &Moment,
    left: Option<MemDisk>,
    what: &str,
    report: &mut Report,
) -> Result<(), NoMemory> {
    let Some(left) = left else {
        report.tell("this can't be done to the disk")?;
        return Ok(());
    };
    if let Some(other) = difference_of_run(alloc, program, crashes, moment, left)? {
        let calls = moment.calls;
        let text = format!(in alloc; "behind call {calls}, {what}: {other}")?;
        report.tell(text.as_str())?;
    }
    Ok(())
}

// Judges the crashes that lose one change, behind the first so many calls of a disk.
fn judge_losses<P: Program>(
    alloc: Global,
    program: &P,
    crashes: &Crashes,
    moment: &Moment,
    disk: &MemDisk,
    count: u64,
    report: &mut Report,
) -> Result<(), NoMemory> {
    let changes = unsure_calls(alloc, first_calls(disk, count))?;
    for place in 0..changes.len() {
        let lost = (place as u64).saturating_add(1);
        let left = crashed_without(alloc, disk, count, lost)?;
        let what = format!(in alloc; "without change {lost}")?;
        judge_image(alloc, program, crashes, moment, left, what.as_str(), report)?;
    }
    Ok(())
}

// Judges the crashes at a moment, behind the first so many calls of a disk.
fn judge_moment<P: Program>(
    alloc: Global,
    program: &P,
    crashes: &Crashes,
    moment: &Moment,
    disk: &MemDisk,
    count: u64,
    report: &mut Report,
) -> Result<(), NoMemory> {
    for tear in crashes.tears.iter() {
        let left = crashed(alloc, disk, count, *tear)?;
        let what = tear_text(alloc, *tear)?;
        judge_image(alloc, program, crashes, moment, left, what.as_str(), report)?;
    }
    if crashes.losses {
        judge_losses(alloc, program, crashes, moment, disk, count, report)?;
    }
    Ok(())
}

// How many commits these calls have begun to write.
fn count_commits(calls: &[Call]) -> u64 {
    let mut moment = Moment::new();
    for call in calls {
        moment.pass(call);
    }
    moment.begun
}

/// Judges the crashes behind each call of a disk but those that read, of its calls behind the first `before`. Where
/// there is not a state for the beginning and for each commit, that is told and nothing else.
pub(crate) fn judge_crashes<P: Program>(
    alloc: Global,
    program: &P,
    crashes: &Crashes,
    disk: &MemDisk,
    before: u64,
    report: &mut Report,
) -> Result<(), NoMemory> {
    let calls = match disk.calls().get(before as usize..) {
        Some(calls) => calls,
        None => &[],
    };
    let wanted = crashes.states.len() as u64;
    let came = count_commits(calls).saturating_add(1);
    if wanted != came {
        let text = format!(in alloc; "how many states: wanted {wanted}, came {came}")?;
        report.tell(text.as_str())?;
        return Ok(());
    }
    let mut moment = Moment::new();
    for call in calls {
        moment.pass(call);
        if !is_read(call) {
            let count = before.saturating_add(moment.calls);
            judge_moment(alloc, program, crashes, &moment, disk, count, report)?;
        }
    }
    Ok(())
}
