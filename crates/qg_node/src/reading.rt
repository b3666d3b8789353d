// Reading a node: the rules that hold of every node.
ghost use Rattle.std.specs.Prelude.{◌≡◌, ◌≤◌, length, IfOk};
ghost use Rattle.qg_node.specs.NodeText.{IsNodeSize, IsNodeText};
ghost use Rattle.qg_node.specs.Reading.{ReadsAs, has_checksum, has_empty_fields, header_at, node_read};

mod inner;
mod leaf;

use crate::{Header, Node, NodeFault, ReadFault};
use qg_crc32c::crc32c;
use qg_num::{Address, Generation, RootId, is_zero, u32_at, u64_at};
use std::alloc::Global;

/// The node whose text the bytes of a slot are, or the first rule that they break (on-disk format, "nodes and leaves").
///
/// `at` is the slot's address in bytes. The rules are looked at in the order of `NodeFault`.
pub fn read_node(alloc: Global, bytes: &[u8], at: Address) -> Result<Node, ReadFault>
    requires { IsNodeSize (length bytes.now) }
    ensures exact { ReadsAs result (node_read at bytes.now) }
    ensures found { IfOk result (λ node. IsNodeText bytes.now at node) }
{
    node_read(alloc, bytes, at)
}

#[tactic(auto, unfolding(crate::specs::Reading::node_read))]
fn node_read(alloc: Global, bytes: &[u8], at: Address) -> Result<Node, ReadFault>
    requires { IsNodeSize (length bytes.now) }
    ensures { ReadsAs result (node_read at bytes.now) }
{
    if !has_checksum(bytes) {
        return Err(ReadFault::Bad(NodeFault::Csum));
    }
    if u64_at(bytes, 48) != at.value() {
        return Err(ReadFault::Bad(NodeFault::Place));
    }
    if bytes[100] > 7 {
        return Err(ReadFault::Bad(NodeFault::Level));
    }
    if bytes[100] != 0 && u32_at(bytes, 96) == 0 {
        return Err(ReadFault::Bad(NodeFault::Empty));
    }
    if bytes[100] == 0 {
        leaf::leaf_at(alloc, bytes)
    } else {
        inner::inner_at(alloc, bytes)
    }
}

#[tactic(auto, unfolding(crate::specs::Reading::has_checksum))]
fn has_checksum(bytes: &[u8]) -> bool
    requires { 101 ≤ length bytes.now }
    ensures { result ≡ has_checksum bytes.now }
{
    let (_, covered) = bytes.split_at(32);
    is_zero(bytes, 4, 32) && u32_at(bytes, 0) == crc32c(covered)
}

#[tactic(auto, unfolding(crate::specs::Reading::has_empty_fields))]
fn has_empty_fields(bytes: &[u8]) -> bool
    requires { 101 ≤ length bytes.now }
    ensures { result ≡ has_empty_fields bytes.now }
{
    is_zero(bytes, 32, 48) && is_zero(bytes, 56, 80)
}

#[tactic(auto, unfolding(crate::specs::Reading::header_at))]
fn header_at(bytes: &[u8]) -> Header
    requires { 101 ≤ length bytes.now }
    ensures { result ≡ header_at bytes.now }
{
    Header {
        address: Address::new(u64_at(bytes, 48)),
        generation: Generation::new(u64_at(bytes, 80)),
        owner: RootId::new(u64_at(bytes, 88)),
        level: bytes[100],
    }
}
