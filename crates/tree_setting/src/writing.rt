// What a commit does with nodes and slots.
ghost use Rattle.std.specs.Prelude.{◌≡◌, ◌+◌, ◌<◌, ◌≤◌, ◌^◌, List, OnOk, IfOk, IsTrue, length};
ghost use Rattle.qg_device.specs.History.{History, Wrote, with_event};
ghost use Rattle.qg_super.specs.Places.{is_served, second_place};
ghost use Rattle.qg_blocks.specs.NodesInMemory.{most_clean, nothing_fresh, slots_of};
ghost use Rattle.qg_blocks.specs.NodesFound.{IsBacked, IsNodeAt};
ghost use Rattle.qg_blocks.specs.Writing.{HasWritten, IsPlaced};
ghost use Rattle.qg_space.specs.Holding.{nothing_held};

use qg_blocks::{Blocks, has_slot};
use qg_disk::{Disk, DiskFault};
use qg_node::{Node, write_node};
use qg_node_alloc::Ground;
use qg_num::{Address, BlockFault, NoMemory};
use qg_space::Space;
use qg_super::{SECOND_PLACE, Sizes};
use std::alloc::Global;

/// No node is in memory, and no slot is taken.
pub(crate) fn empty_land(
    alloc: Global,
    nodesize: u32,
    slots: u64,
    bound: usize,
) -> Result<Ground, NoMemory>
    requires served { IsTrue (is_served (slots_of nodesize slots)) }
    requires some { 1 ≤ bound }
    requires most { bound ≤ most_clean }
    ensures draft { IfOk result (λ land. land.blocks.draft ≡ nothing_fresh (slots_of nodesize slots)) }
    ensures space { IfOk result (λ land. land.space ≡ nothing_held (slots_of nodesize slots)) }
    ensures backed { IfOk result (λ land. (history : History) → IsBacked land.blocks history) }
{
    Ok(Ground {
        blocks: Blocks::with_bound(alloc, nodesize, slots, bound)?,
        space: Space::new(alloc, slots, nodesize, 16)?,
    })
}

/// The present state and the last commit hold the first so many free slots.
pub(crate) fn hold_first(space: &mut Space, slots: u64) -> Result<(), NoMemory>
    ensures { space.new.sizes ≡ space.old.sizes }
{
    for _ in 0..slots {
        let _slot = space.take_slot()?;
    }
    space.committed();
    Ok(())
}

/// Makes a disk so long that all slots lie inside.
pub(crate) fn lengthen<D: Disk>(disk: &mut D) -> Result<(), BlockFault>
    ensures { OnOk result (second_place ≤ D.size disk.new) }
{
    if disk.len() < SECOND_PLACE {
        write(disk, SECOND_PLACE - 1, &[0])?;
    }
    Ok(())
}

/// Writes the fresh nodes of an image, which are clean then.
pub(crate) fn write_fresh<D: Disk>(
    alloc: Global,
    sizes: &Sizes,
    blocks: &mut Blocks,
    disk: &mut D,
) -> Result<(), BlockFault>
    requires served { IsTrue (is_served sizes.now) }
    requires sizes { blocks.old.draft.sizes ≡ sizes.now }
    requires backed { IsBacked blocks.old (D.history disk.old) }
    ensures backed { OnOk result (IsBacked blocks.new (D.history disk.new)) }
    ensures draft { OnOk result (blocks.new.draft ≡ nothing_fresh sizes.now) }
    ensures size { D.size disk.old ≤ D.size disk.new }
{
    let mut buffer = vec![in alloc; 0; sizes.nodesize as usize]?;
    let addresses = blocks.dirty()?;
    for address in addresses.as_slice() {
        write_one(sizes, blocks.peek(*address), &mut buffer, disk, *address)?;
    }
    blocks.written(disk);
    Ok(())
}

// Writes a node over a buffer, where it can be written.
fn write_one<D: Disk>(
    sizes: &Sizes,
    node: &Node,
    buffer: &mut [u8],
    disk: &mut D,
    address: Address,
) -> Result<(), BlockFault>
    requires served { IsTrue (is_served sizes.now) }
    requires buffer { length buffer.old ≡ sizes.now.nodesize }
    ensures kept { OnOk result (IsNodeAt sizes.now.nodesize address node.now) }
    ensures written { OnOk result (HasWritten sizes.now (D.history disk.old) (D.history disk.new) address node.now) }
    ensures size { D.size disk.old ≤ D.size disk.new }
{
    if !is_placed(sizes, node, disk.len(), address) {
        return Err(BlockFault::NoMemory);
    }
    write_node(node, buffer);
    write(disk, address.value(), buffer)
}

// Whether a node can be written at an address of a disk of so many bytes.
fn is_placed(sizes: &Sizes, node: &Node, bytes: u64, address: Address) -> bool
    requires { IsTrue (is_served sizes.now) }
    ensures { IsTrue result → IsPlaced sizes.now bytes address node.now }
{
    let is_named = node.header().address == address;
    is_named && node.has_text(sizes.nodesize as usize) && has_slot(sizes, bytes, address)
}

// Writes bytes from a place on.
fn write<D: Disk>(disk: &mut D, at: u64, bytes: &[u8]) -> Result<(), BlockFault>
    requires { at + length bytes.now < 2 ^ 64 }
    ensures event { OnOk result (D.history disk.new ≡ with_event (Wrote at bytes.now) (D.history disk.old)) }
    ensures reaches { OnOk result (at + length bytes.now ≤ D.size disk.new) }
    ensures no_less { D.size disk.old ≤ D.size disk.new }
{
    match disk.write_at(at, bytes) {
        Ok(()) => Ok(()),
        Err(DiskFault::Failed) => Err(BlockFault::Disk),
        Err(DiskFault::NoMemory) => Err(BlockFault::NoMemory),
    }
}
