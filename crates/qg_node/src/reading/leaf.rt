// Reading a leaf, whose header keeps the rules.
ghost use Rattle.std.specs.Prelude.{◌+◌, ◌*◌, ◌≤◌, length, IfOk};
ghost use Rattle.qg_node.specs.NodeText.{IsNodeSize};
ghost use Rattle.qg_node.specs.Reading.{ReadsAs, item_at, items_at, leaf_at};

use super::{has_empty_fields, header_at};
use crate::keyed::is_ascending;
use crate::node::{HEADER_BYTES, ITEM_HEADER_BYTES};
use crate::{Body, Item, Items, Node, NodeFault, ReadFault};
use qg_num::{Key, is_zero, u32_at};
use std::alloc::Global;

#[tactic(auto, unfolding(crate::specs::Reading::leaf_at))]
pub(super) fn leaf_at(alloc: Global, bytes: &[u8]) -> Result<Node, ReadFault>
    requires { IsNodeSize (length bytes.now) }
    ensures { ReadsAs result (leaf_at bytes.now) }
{
    let count = u32_at(bytes, 96);
    let low = HEADER_BYTES + ITEM_HEADER_BYTES * count as usize;
    if low > bytes.len() {
        return Err(ReadFault::Bad(NodeFault::Bounds));
    }
    let (items, end) = items_at(alloc, bytes, count, low)?;
    if !is_ascending(items.as_slice()) {
        return Err(ReadFault::Bad(NodeFault::Order));
    }
    if !has_empty_fields(bytes) || !is_zero(bytes, low, end) {
        return Err(ReadFault::Bad(NodeFault::Slack));
    }
    Ok(Node::Leaf {
        header: header_at(bytes),
        items,
    })
}

/// So many items, and where the last one's body begins.
fn items_at(
    alloc: Global,
    bytes: &[u8],
    count: u32,
    low: usize,
) -> Result<(Items, usize), ReadFault>
    requires size { IsNodeSize (length bytes.now) }
    requires low { (101 + 25 * count ≤ low) × (low ≤ length bytes.now) }
    ensures exact { ReadsAs result (items_at count 101 (length bytes.now) low bytes.now) }
    ensures begin { IfOk result (λ read. (low ≤ read.1) × (read.1 ≤ length bytes.now)) }
{
    let mut items = Items::with_capacity(alloc, count as usize)?;
    let mut end = bytes.len();
    for i in 0..count {
        let place = HEADER_BYTES + ITEM_HEADER_BYTES * i as usize;
        let (item, begin) = item_at(alloc, bytes, place, end, low)?;
        items.push(item)?;
        end = begin;
    }
    Ok((items, end))
}

/// The item whose header stands at a place and whose body ends at another, and where its body begins.
#[tactic(auto, unfolding(crate::specs::Reading::item_at))]
fn item_at(
    alloc: Global,
    bytes: &[u8],
    place: usize,
    end: usize,
    low: usize,
) -> Result<(Item, usize), ReadFault>
    requires size { IsNodeSize (length bytes.now) }
    requires header { place + 25 ≤ length bytes.now }
    requires end { end ≤ length bytes.now }
    requires low { low ≤ length bytes.now }
    ensures exact { ReadsAs result (item_at place end low bytes.now) }
    ensures begin { IfOk result (λ read. (low ≤ read.1) × (read.1 ≤ end)) }
{
    let size = u32_at(bytes, place + 21) as usize;
    if low + size > end {
        return Err(ReadFault::Bad(NodeFault::Bounds));
    }
    if HEADER_BYTES + u32_at(bytes, place + 17) as usize + size != end {
        return Err(ReadFault::Bad(NodeFault::Bounds));
    }
    let body = Body::from_slice(alloc, &bytes[end - size..end])?;
    let key = Key::read_at(bytes, place);
    Ok((Item { key, body }, end - size))
}
