// An image is judged.
ghost use Rattle.std.specs.Prelude.{◌≡◌, IsTrue};
ghost use Rattle.qg_device.specs.Cause.{HasEndCause};
ghost use Rattle.qg_script.specs.Added.{Adds};
ghost use Rattle.qg_program.specs.Ends.{is_checkers};
ghost use Rattle.qg_program.specs.Checking.{Checks, Says, report_end, report_text};

use crate::Status;
use crate::put::put_and_end;
use qg_disk::Disk;
use qg_edge::Sink;
use qg_num::NoMemory;
use qg_script::{Text, write_broken, write_differs, write_sound};
use qg_store::check::{CheckFault, Report, count_image};
use std::alloc::Global;

/// Judges the image, which is not written, and says what it is.
pub(crate) fn check<D: Disk, K: Sink>(alloc: Global, disk: &mut D, sink: &mut K) -> Status
    ensures checks { Checks result (D.history disk.old) (K.bytes_held sink.old) (K.bytes_held sink.new) }
    ensures unwritten { (D.history disk.new ≡ D.history disk.old) × (D.size disk.new ≡ D.size disk.old) }
    ensures ends { IsTrue (is_checkers result) }
    ensures sink_fault { HasEndCause Status.Sink (K.faults sink.old) (K.faults sink.new) result }
    ensures disk_fault { HasEndCause Status.Disk (D.faults disk.old) (D.faults disk.new) result }
{
    match count_image(alloc, disk) {
        Ok(report) => say(alloc, &report, sink),
        Err(CheckFault::Disk) => Status::Disk,
        Err(CheckFault::NoMemory) => Status::NoMemory,
    }
}

// Says what an image is.
fn say<K: Sink>(alloc: Global, report: &Report, sink: &mut K) -> Status
    ensures says { Says result report.now (K.bytes_held sink.old) (K.bytes_held sink.new) }
    ensures sink_fault { HasEndCause Status.Sink (K.faults sink.old) (K.faults sink.new) result }
{
    let mut text = Text::new(alloc);
    let Ok(()) = write_report(report, &mut text) else {
        return Status::NoMemory;
    };
    put_and_end(end_of(report), text.as_slice(), sink)
}

// Adds the line that says what an image is.
fn write_report(report: &Report, text: &mut Text) -> Result<(), NoMemory>
    ensures { Adds result text.old text.new (report_text report.now) }
{
    match report {
        Report::Sound(generation) => write_sound(*generation, text),
        Report::Broken { rule, address } => write_broken(*rule, *address, text),
        Report::Differs {
            group,
            which,
            stored,
            counted,
        } => write_differs(*group, *which, *stored, *counted, text),
    }
}

// How the program ends for it.
fn end_of(report: &Report) -> Status
    ensures { result ≡ report_end report.now }
{
    match report {
        Report::Sound(_) => Status::Done,
        Report::Broken { .. } => Status::Found,
        Report::Differs { .. } => Status::Found,
    }
}
