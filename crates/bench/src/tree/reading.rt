// How long nodes take to be read, beside what that is made of.
ghost use Rattle.std.specs.Prelude.{◌≡◌, ◌≤◌};

use crate::crc32c::by_nodes;
use crate::report::{Report, timed};
use qg_blocks::Blocks;
use qg_disk::Disk;
use qg_node::read_node;
use qg_num::{Address, BlockFault, Steps};
use std::alloc::Global;
use std::io;
use std::rt::Clock;
use std::sync::ledger::Ledger;

/// Bytes of a node.
const NODE: usize = 16384;

/// Prints how long it takes to load the nodes at these addresses, of which none is in memory, and how long to read
/// their bytes from the disk, to take the checksums of these, and to decode them. A checksum is taken there too.
pub(crate) fn measure_reads<D: Disk + Drop, L: Ledger>(
    rt: &(impl Clock + Print),
    alloc: Global,
    report: Report,
    disk: D,
    addresses: &[Address],
    reads: Steps<L>,
) -> io::Result<()> {
    let (mut disk, mut reads) = (disk, reads);
    let count = addresses.len() as u64;
    let mut image = vec![in alloc; 0u8; addresses.len().saturating_mul(NODE)]?;
    for _ in 0..report.rounds() {
        let (_, load_time) = timed(rt, || load_all(alloc, &mut disk, addresses, &mut reads))?;
        let (_, read_time) = timed(rt, || read_all(&mut disk, addresses, &mut image))?;
        let (sum, sum_time) = timed(rt, || Ok(by_nodes(&image)))?;
        let (decoded, decode_time) = timed(rt, || Ok(decode_all(alloc, addresses, &image)))?;
        let rows = [
            ("loaded", count, load_time),
            ("read", count, read_time),
            ("summed", sum as u64, sum_time),
            ("decoded", decoded, decode_time),
        ];
        report.print(rt, &rows)?;
    }
    Ok(())
}

/// Loads each node.
#[tactic(auto, unfolding(qg_super::specs::Places::is_served))]
fn load_all<D: Disk, L: Ledger>(
    alloc: Global,
    disk: &mut D,
    addresses: &[Address],
    reads: &mut Steps<L>,
) -> Result<(), BlockFault> {
    let mut blocks = Blocks::with_bound(alloc, NODE as u32, 4032, 1)?;
    for address in addresses {
        blocks.load(disk, *address, reads)?;
    }
    Ok(())
}

/// Reads the bytes of each node.
fn read_all<D: Disk>(
    disk: &mut D,
    addresses: &[Address],
    image: &mut [u8],
) -> Result<(), BlockFault> {
    for (slot, address) in image.chunks_exact_mut(NODE).zip(addresses) {
        read_one(disk, address.value(), slot)?;
    }
    Ok(())
}

/// Reads bytes from a place on, if the disk has so many.
fn read_one<D: Disk>(disk: &mut D, at: u64, slot: &mut [u8]) -> Result<(), BlockFault> {
    let (len, count) = (disk.len(), slot.len() as u64);
    if count > len || at > len - count {
        return Err(BlockFault::Disk);
    }
    disk.read(at, slot).map_err(|_| BlockFault::Disk)
}

/// Reads each node from its bytes. Answers how many are nodes.
fn decode_all(alloc: Global, addresses: &[Address], image: &[u8]) -> u64 {
    let mut count = 0u64;
    for (slot, address) in image.chunks_exact(NODE).zip(addresses) {
        if slot.len() == NODE && read_node(alloc, slot, *address).is_ok() {
            count = count.wrapping_add(1);
        }
    }
    count
}
