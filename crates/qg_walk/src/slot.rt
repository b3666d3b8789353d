// Reading what stands in a slot.
ghost use Rattle.std.specs.Prelude.{◌≡◌, ◌≤◌, List, length, IfOk, IsTrue};
ghost use Rattle.qg_device.specs.Cause.{HasCause};
ghost use Rattle.qg_device.specs.History.{Event, Recorded, content};
ghost use Rattle.qg_super.specs.Places.{is_served, total_bytes};
ghost use Rattle.qg_super.specs.SuperText.{sizes_of};
ghost use Rattle.qg_image.specs.Walk.{node_found};
ghost use Rattle.qg_walk.specs.Fault.{FindsAs};
ghost use Rattle.qg_walk.specs.Standing.{StandsAt};

use crate::OpenFault;
use qg_disk::Disk;
use qg_node::{Node, ReadFault, read_node};
use qg_num::{Address, Rule};
use qg_super::Super;
use std::alloc::Global;

/// The node in the slot at an address, read over a buffer of a node's size, or the first rule that is broken there.
pub(crate) fn node_at<D: Disk>(
    alloc: Global,
    disk: &mut D,
    superblock: &Super,
    buffer: &mut [u8],
    address: Address,
) -> Result<Node, OpenFault>
    requires served { IsTrue (is_served (sizes_of superblock.now)) }
    requires inside { total_bytes (sizes_of superblock.now) ≤ D.size disk.old }
    requires buffer { length buffer.old ≡ superblock.now.nodesize }
    ensures told { (events : List Event) → D.history disk.old ≡ Recorded events
        → FindsAs result (node_found superblock.now (content events) address) }
    ensures stands { IfOk result (λ node. StandsAt superblock.now address node) }
    ensures history { D.history disk.new ≡ D.history disk.old }
    ensures size { D.size disk.new ≡ D.size disk.old }
    ensures cause { HasCause OpenFault.Disk (D.faults disk.old) (D.faults disk.new) result }
{
    if !superblock.sizes().is_slot(address) {
        return Err(OpenFault::Broken {
            rule: Rule::Slot,
            address,
        });
    }
    disk.read(address.value(), buffer)?;
    match read_node(alloc, buffer, address) {
        Ok(node) => Ok(node),
        Err(ReadFault::Bad(fault)) => Err(OpenFault::Broken {
            rule: fault.rule(),
            address,
        }),
        Err(ReadFault::NoMemory) => Err(OpenFault::NoMemory),
    }
}
