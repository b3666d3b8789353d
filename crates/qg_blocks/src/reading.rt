// Reading the node that stands at an address of a disk.
ghost use Rattle.std.specs.Prelude.{◌≡◌, List, length, IfOk, IsTrue};
ghost use Rattle.qg_device.specs.Cause.{HasCause};
ghost use Rattle.qg_device.specs.History.{Event, Recorded, content};
ghost use Rattle.qg_num.specs.declared.fault.BlockFault.TheVariants.{Disk as DiskFailed};
ghost use Rattle.qg_node.specs.NodeText.{IsNodeSize};
ghost use Rattle.qg_super.specs.Places.{is_served};
ghost use Rattle.qg_blocks.specs.Standing.{has_slot, standing};
ghost use Rattle.qg_blocks.specs.NodesFound.{BreaksForCause, Finds, IsNodeAt};

use qg_disk::{Disk, DiskFault};
use qg_node::{Node, ReadFault, read_node};
use qg_num::{Address, BlockFault, Rule};
use qg_super::Sizes;
use std::alloc::Global;

/// The node at an address, read over a buffer of a node's size, or the first rule that is broken there.
pub(crate) fn read_at<D: Disk>(
    alloc: Global,
    disk: &mut D,
    sizes: &Sizes,
    buffer: &mut [u8],
    address: Address,
) -> Result<Node, BlockFault>
    requires served { IsTrue (is_served sizes.now) }
    requires buffer { length buffer.old ≡ sizes.now.nodesize }
    ensures found { (events : List Event) → D.history disk.old ≡ Recorded events
        → Finds result address (standing sizes.now (content events) address) }
    ensures kept { IfOk result (λ node. IsNodeAt sizes.now.nodesize address node) }
    ensures broken { BreaksForCause result sizes.now (D.size disk.old) address }
    ensures history { D.history disk.new ≡ D.history disk.old }
    ensures size { D.size disk.new ≡ D.size disk.old }
    ensures cause { HasCause DiskFailed (D.faults disk.old) (D.faults disk.new) result }
{
    if !has_slot(sizes, disk.len(), address) {
        return Err(broken(Rule::Slot, address));
    }
    match disk.read(address.value(), buffer) {
        Ok(()) => {}
        Err(DiskFault::Failed) => return Err(BlockFault::Disk),
        Err(DiskFault::NoMemory) => return Err(BlockFault::NoMemory),
    }
    match read_node(alloc, buffer, address) {
        Ok(node) => Ok(node),
        Err(ReadFault::Bad(fault)) => Err(broken(fault.rule(), address)),
        Err(ReadFault::NoMemory) => Err(BlockFault::NoMemory),
    }
}

/// Whether an address is that of a slot which ends inside a disk of so many bytes.
#[tactic(auto, unfolding(crate::specs::Standing::has_slot))]
pub fn has_slot(sizes: &Sizes, bytes: u64, address: Address) -> bool
    requires { IsTrue (is_served sizes.now) }
    ensures { result ≡ has_slot sizes.now bytes address }
{
    sizes.is_slot(address) && sizes.nodesize <= bytes && address.value() <= bytes - sizes.nodesize
}

// The fault that a rule is broken at an address.
fn broken(rule: Rule, address: Address) -> BlockFault
    ensures { result ≡ BlockFault.Image rule address }
{
    BlockFault::Image { rule, address }
}
