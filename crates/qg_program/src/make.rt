// An image is made.
ghost use Rattle.std.specs.Prelude.{◌≡◌, ◌≢◌, ◌↔◌, ◌⊎◌, List, false, IsTrue};
ghost use Rattle.qg_device.specs.Cause.{HasEndCause};
ghost use Rattle.qg_device.specs.History.{Event, Recorded, history_after};
ghost use Rattle.qg_super.specs.Places.{is_served, slot_at};
ghost use Rattle.qg_store.specs.Calls.{with_image};
ghost use Rattle.qg_store.specs.Fresh.{fresh_nodes, fresh_super};
ghost use Rattle.qg_store.specs.Mkfs.{HoldsFreshImage, StopsMaking};
ghost use Rattle.qg_program.specs.Ends.{is_made, is_makers};
ghost use Rattle.qg_program.specs.Putting.{SaysMade, WantsMemory};

use crate::Status;
use crate::put::put;
use qg_disk::Disk;
use qg_edge::Sink;
use qg_store::image_commit::{MkfsFault, mkfs};
use qg_super::Sizes;
use std::alloc::Global;

/// Makes a fresh image of these sizes and says so.
pub(crate) fn make<D: Disk, K: Sink>(
    alloc: Global,
    sizes: Sizes,
    disk: &mut D,
    sink: &mut K,
) -> Status
    ensures ends { IsTrue (is_makers result) }
    ensures sizes { (result ≡ Status.Sizes) ↔ (is_served sizes ≡ false) }
    ensures untouched { result ≡ Status.Sizes → (disk.new ≡ disk.old) × (sink.new ≡ sink.old) }
    ensures calls { IsTrue (is_made result) → D.history disk.new
        ≡ history_after (with_image (fresh_super sizes (slot_at sizes 0)) (fresh_nodes sizes)) (D.history disk.old) }
    ensures fresh { (before : List Event) → D.history disk.old ≡ Recorded before → IsTrue (is_made result)
        → HoldsFreshImage sizes (D.history disk.new) }
    ensures stops { result ≡ Status.Disk → StopsMaking sizes (D.history disk.old) (D.history disk.new) }
    ensures wants { result ≡ Status.NoMemory
        → WantsMemory D.takes_memory sizes (D.history disk.old) (D.history disk.new) }
    ensures put { SaysMade result (K.bytes_held sink.old) (K.bytes_held sink.new) }
    ensures sink_fault { HasEndCause Status.Sink (K.faults sink.old) (K.faults sink.new) result }
    ensures disk_fault { HasEndCause Status.Disk (D.faults disk.old) (D.faults disk.new) result }
{
    match mkfs(alloc, disk, sizes) {
        Ok(()) => match put(sink, b"ok mkfs\n") {
            Ok(()) => Status::Done,
            Err(status) => status,
        },
        Err(MkfsFault::Size) => Status::Sizes,
        Err(MkfsFault::Disk) => Status::Disk,
        Err(MkfsFault::NoMemory) => Status::NoMemory,
    }
}
