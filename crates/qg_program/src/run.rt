// A script is run over an image.
ghost use Rattle.std.specs.Prelude.{◌≡◌, ℕ, List, Some, IsTrue};
ghost use Rattle.qg_device.specs.History.{Event, Recorded, content};
ghost use Rattle.qg_image.specs.State.{State};
ghost use Rattle.qg_image.specs.StateOf.{StateOf};
ghost use Rattle.qg_image.specs.Verdict.{IsSound, verdict};
ghost use Rattle.qg_image.specs.declared.failure.Failure.{Failure};
ghost use Rattle.qg_program.specs.Ends.{HasCauses, is_runners};
ghost use Rattle.qg_program.specs.Following.{Follows};
ghost use Rattle.qg_program.specs.Leaving.{Input, LeavesBehind};
ghost use Rattle.qg_program.specs.Putting.{PutsFailure, RefusesImage};
ghost use Rattle.qg_program.specs.Running.{IsTaken};

use crate::Status;
use crate::refuse::refuse;
use crate::turn::answer_lines;
use qg_disk::Disk;
use qg_edge::{Sink, Source};
use qg_store::Store;
use std::alloc::Global;
use std::marker::Brand;
use std::sync::ledger::Blank;

/// Opens the image, and answers the lines of the source; of an image that is not sound it says why.
pub(crate) fn run<D: Disk, S: Source, K: Sink>(
    alloc: Global,
    disk: &mut D,
    source: &mut S,
    sink: &mut K,
) -> Status
    ensures follows { (events : List Event) (input : List ℕ) (state : State) → D.history disk.old ≡ Recorded events
        → S.bytes_left source.old ≡ Some input → StateOf (content events) state
        → Follows result state input (S.bytes_left source.new) events (D.history disk.new)
        (K.bytes_held sink.old) (K.bytes_held sink.new) }
    ensures crashes { (events after : List Event) (state : State) → D.history disk.old ≡ Recorded events
        → D.history disk.new ≡ Recorded after → StateOf (content events) state
        → LeavesBehind result state (Input (S.bytes_left source.old)) events after (K.bytes_held sink.old)
        (K.bytes_held sink.new) }
    ensures unsound { (events : List Event) → D.history disk.old ≡ Recorded events → result ≡ Status.Image
        → IsSound (content events) → ⊥ }
    ensures refuses { (events : List Event) (failure : Failure) → D.history disk.old ≡ Recorded events
        → verdict (content events) ≡ Some failure
        → RefusesImage result failure events (D.history disk.new) (K.bytes_held sink.old) (K.bytes_held sink.new)
        × (source.new ≡ source.old) }
    ensures told { result ≡ Status.Image → PutsFailure (K.bytes_held sink.old) (K.bytes_held sink.new) }
    ensures takes { IsTaken result (S.bytes_left source.old) (S.bytes_left source.new) }
    ensures ends { IsTrue (is_runners result) }
    ensures causes { HasCauses result (S.faults source.old) (S.faults source.new) (K.faults sink.old)
        (K.faults sink.new) (D.faults disk.old) (D.faults disk.new) }
{
    match Store::open(alloc, disk) {
        Ok(store) => answer_lines::<Brand, Brand, D, S, K>(
            alloc,
            store,
            Blank::new(1),
            Blank::new(1),
            disk,
            source,
            sink,
        ),
        Err(fault) => refuse(alloc, fault, sink),
    }
}
