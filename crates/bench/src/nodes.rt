// Leaves that are written and read. `bench/nodes.rs` takes the checksums of the same.
ghost use Rattle.qg_node.specs.NodeText.{IsNode};

use crate::report::{Report, timed};
use qg_node::{Body, Header, Item, Items, Node, read_node, write_node};
use qg_num::{Address, Generation, Key, RootId, u32_at};
use std::alloc::{AllocError, Global};
use std::io;
use std::rt::Clock;

/// Bytes of a node.
const NODE: usize = 16384;

/// Where each leaf says that it lies, in bytes.
const PLACE: u64 = 1048576;

/// Prints what leaves give that are written and then read.
pub(crate) fn measure(rt: &(impl Clock + Print), alloc: Global, report: Report) -> io::Result<()> {
    let node = leaf(alloc)?;
    if !node.has_text(NODE) {
        return Ok(());
    }
    let slots = if report.is_timed { 4032 } else { 4 };
    let mut image = vec![in alloc; 0u8; slots * NODE]?;
    for _ in 0..report.rounds() {
        let (written, write_time) = timed(rt, || Ok(write_all(&node, &mut image)))?;
        let (read, read_time) = timed(rt, || Ok(read_all(alloc, &image)))?;
        let rows = [("written", written, write_time), ("read", read, read_time)];
        report.print(rt, &rows)?;
    }
    Ok(())
}

/// A leaf of 200 items whose bodies have 53 bytes.
fn leaf(alloc: Global) -> Result<Node, AllocError> {
    let mut items = Items::new(alloc);
    for i in 0..200u64 {
        let key = Key {
            objectid: 257,
            kind: 108,
            offset: 4096 * i,
        };
        let body = Body::from_slice(alloc, &[7; 53])?;
        items.push(Item { key, body })?;
    }
    let header = Header {
        address: Address::new(PLACE),
        generation: Generation::new(2),
        owner: RootId::new(5),
        level: 0,
    };
    Ok(Node::Leaf { header, items })
}

/// Writes the leaf into each slot of the image. Answers the sum of the checksums that were written.
fn write_all(node: &Node, image: &mut [u8]) -> u64
    requires { IsNode 16384 node.now }
{
    let mut sum = 0u64;
    for slot in image.chunks_exact_mut(NODE) {
        if slot.len() == NODE {
            write_node(node, slot);
            sum = sum.wrapping_add(u32_at(slot, 0) as u64);
        }
    }
    sum
}

/// Reads the leaf in each slot of the image. Answers the sum of the checksums of those that were read whole.
fn read_all(alloc: Global, image: &[u8]) -> u64 {
    let mut sum = 0u64;
    for slot in image.chunks_exact(NODE) {
        if slot.len() == NODE {
            if let Ok(Node::Leaf { items, .. }) = read_node(alloc, slot, Address::new(PLACE)) {
                if items.len() == 200 {
                    sum = sum.wrapping_add(u32_at(slot, 0) as u64);
                }
            }
        }
    }
    sum
}
