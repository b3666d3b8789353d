// An image that is not sound is refused.
ghost use Rattle.std.specs.Prelude.{◌≡◌, ◌↔◌, ◌⊎◌, Some, None, IsTrue};
ghost use Rattle.qg_device.specs.Cause.{HasEndCause};
ghost use Rattle.qg_image.specs.declared.failure.Failure.{Failure};
ghost use Rattle.qg_walk.specs.declared.fault.OpenFault.TheVariants as opening;
ghost use Rattle.qg_walk.specs.Fault.{TellsFailure};
ghost use Rattle.qg_program.specs.Ends.{is_judged, is_refusers};
ghost use Rattle.qg_program.specs.Putting.{Refuses, SaysFailure, failure_text};

use crate::Status;
use crate::put::put;
use qg_edge::Sink;
use qg_script::{Text, write_broken, write_differs};
use qg_store::image_commit::OpenFault;
use std::alloc::Global;

/// Says why the image was not opened, where it is not sound.
pub(crate) fn refuse<K: Sink>(alloc: Global, fault: OpenFault, sink: &mut K) -> Status
    ensures refuses { (failure : Failure) → TellsFailure fault (Some failure)
        → Refuses result (failure_text failure) (K.bytes_held sink.old) (K.bytes_held sink.new) }
    ensures silent { TellsFailure fault None
        → ((result ≡ Status.Disk) ⊎ (result ≡ Status.NoMemory)) × (K.bytes_held sink.new ≡ K.bytes_held sink.old) }
    ensures told { result ≡ Status.Image → SaysFailure (K.bytes_held sink.old) (K.bytes_held sink.new) }
    ensures ends { IsTrue (is_refusers result) }
    ensures disk { (result ≡ Status.Disk) ↔ (fault ≡ opening.Disk) }
    ensures judged { IsTrue (is_judged result) → (fault ≡ opening.Disk → ⊥) × (fault ≡ opening.NoMemory → ⊥) }
    ensures sink_fault { HasEndCause Status.Sink (K.faults sink.old) (K.faults sink.new) result }
{
    let mut text = Text::new(alloc);
    let written = match fault {
        OpenFault::Broken { rule, address } => write_broken(rule, address, &mut text),
        OpenFault::Differs {
            group,
            which,
            stored,
            counted,
        } => write_differs(group, which, stored, counted, &mut text),
        OpenFault::Disk => return Status::Disk,
        OpenFault::NoMemory => return Status::NoMemory,
    };
    if written.is_err() {
        return Status::NoMemory;
    }
    match put(sink, text.as_slice()) {
        Ok(()) => Status::Image,
        Err(status) => status,
    }
}
