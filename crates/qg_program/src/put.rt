// Bytes are put.
ghost use Rattle.std.specs.Prelude.{◌≡◌, ◌≢◌, ◌⊎◌, IfErr, OnOk};
ghost use Rattle.std.specs.Io.KnownBytes.{append_known};
ghost use Rattle.qg_device.specs.Cause.{HasCause, HasEndCause};
ghost use Rattle.qg_program.specs.Putting.{FailsToPut, IsPutFault, PutsAndEnds};

use crate::Status;
use qg_edge::{EdgeFault, Sink};
use qg_script::Text;

/// Puts some bytes by one call; `Err` says how the program ends.
pub(crate) fn put<K: Sink>(sink: &mut K, bytes: &[u8]) -> Result<(), Status>
    ensures ok { OnOk result (K.bytes_held sink.new ≡ append_known (K.bytes_held sink.old) bytes.now) }
    ensures err { IfErr result (λ status. FailsToPut status bytes.now (K.bytes_held sink.old) (K.bytes_held sink.new)) }
    ensures ends { IfErr result IsPutFault }
    ensures cause { HasCause Status.Sink (K.faults sink.old) (K.faults sink.new) result }
{
    match sink.put(bytes) {
        Ok(()) => Ok(()),
        Err(EdgeFault::Failed) => Err(Status::Sink),
        Err(EdgeFault::NoMemory) => Err(Status::NoMemory),
    }
}

/// Puts some bytes by one call, and ends so; where they can't be put whole, as that says.
pub(crate) fn put_and_end<K: Sink>(end: Status, bytes: &[u8], sink: &mut K) -> Status
    ensures put { PutsAndEnds end result bytes.now (K.bytes_held sink.old) (K.bytes_held sink.new) }
    ensures ends { (result ≡ end) ⊎ IsPutFault result }
    ensures cause { end ≢ Status.Sink → HasEndCause Status.Sink (K.faults sink.old) (K.faults sink.new) result }
{
    match put(sink, bytes) {
        Ok(()) => end,
        Err(status) => status,
    }
}

/// Puts the line that says why the image is no longer sound, where the program ends for that; hands on how it ends.
pub(crate) fn end<K: Sink>(status: Status, text: &Text, sink: &mut K) -> Status
    ensures other { status ≢ Status.Image → (result ≡ status) × (K.bytes_held sink.new ≡ K.bytes_held sink.old) }
    ensures image { status ≡ Status.Image → result ≡ Status.Image
        → K.bytes_held sink.new ≡ append_known (K.bytes_held sink.old) text.now }
    ensures fails { status ≡ Status.Image → result ≢ Status.Image
        → FailsToPut result text.now (K.bytes_held sink.old) (K.bytes_held sink.new) }
    ensures ends { (result ≡ status) ⊎ IsPutFault result }
    ensures cause { status ≢ Status.Sink → HasEndCause Status.Sink (K.faults sink.old) (K.faults sink.new) result }
{
    if status != Status::Image {
        return status;
    }
    match put(sink, text.as_slice()) {
        Ok(()) => Status::Image,
        Err(status) => status,
    }
}
