// Reading an inner node, whose header keeps the rules.
ghost use Rattle.std.specs.Prelude.{◌≡◌, ◌+◌, ◌*◌, ◌≤◌, length, IfOk};
ghost use Rattle.qg_node.specs.NodeText.{IsNodeSize};
ghost use Rattle.qg_node.specs.Reading.{ReadsAs, inner_at, pointer_at, pointers_at};

use super::{has_empty_fields, header_at};
use crate::keyed::is_ascending;
use crate::node::{HEADER_BYTES, POINTER_BYTES};
use crate::{Node, NodeFault, Pointer, Pointers, ReadFault};
use qg_num::{Address, Generation, Key, is_zero, u32_at, u64_at};
use std::alloc::{AllocError, Global};

#[tactic(auto, unfolding(crate::specs::Reading::inner_at))]
pub(super) fn inner_at(alloc: Global, bytes: &[u8]) -> Result<Node, ReadFault>
    requires { IsNodeSize (length bytes.now) }
    ensures { ReadsAs result (inner_at bytes.now) }
{
    let count = u32_at(bytes, 96);
    let end = HEADER_BYTES + POINTER_BYTES * count as usize;
    if end > bytes.len() {
        return Err(ReadFault::Bad(NodeFault::Bounds));
    }
    let pointers = pointers_at(alloc, bytes, count)?;
    if !is_ascending(pointers.as_slice()) {
        return Err(ReadFault::Bad(NodeFault::Order));
    }
    if !has_empty_fields(bytes) || !is_zero(bytes, end, bytes.len()) {
        return Err(ReadFault::Bad(NodeFault::Slack));
    }
    Ok(Node::Inner {
        header: header_at(bytes),
        pointers,
    })
}

fn pointers_at(alloc: Global, bytes: &[u8], count: u32) -> Result<Pointers, AllocError>
    requires { 101 + 33 * count ≤ length bytes.now }
    ensures { IfOk result (λ pointers. pointers ≡ pointers_at count 101 bytes.now) }
{
    let mut pointers = Pointers::with_capacity(alloc, count as usize)?;
    for i in 0..count {
        let place = HEADER_BYTES + POINTER_BYTES * i as usize;
        pointers.push(pointer_at(bytes, place))?;
    }
    Ok(pointers)
}

#[tactic(auto, unfolding(crate::specs::Reading::pointer_at))]
fn pointer_at(bytes: &[u8], place: usize) -> Pointer
    requires { place + 33 ≤ length bytes.now }
    ensures { result ≡ pointer_at place bytes.now }
{
    Pointer {
        key: Key::read_at(bytes, place),
        child: Address::new(u64_at(bytes, place + 17)),
        generation: Generation::new(u64_at(bytes, place + 25)),
    }
}
