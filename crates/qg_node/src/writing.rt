// Writing a node.
ghost use Rattle.std.specs.Prelude.{◌≡◌, ◌+◌, ◌*◌, ◌≤◌, ◌<◌, ◌^◌, ◌++◌, length, take, drop, slice_range, All};
ghost use Rattle.qg_num.specs.Fields.{u32_bytes, zeros};
ghost use Rattle.qg_num.specs.Key.{IsKey, key_bytes};
ghost use Rattle.qg_node.specs.Fits.{HeaderFits, ItemFits, NodeFits, PointerFits};
ghost use Rattle.qg_node.specs.Nodes.{header_of, items_bytes};
ghost use Rattle.qg_node.specs.NodeText.{IsNode, IsNodeSize, covered_text, header_text, inner_text, item_header};
ghost use Rattle.qg_node.specs.NodeText.{leaf_text, node_text, pointer_text};
ghost use Rattle.qg_node.specs.Reading.{node_read};

use crate::node::{ITEM_HEADER_BYTES, POINTER_BYTES};
use crate::{Header, Item, Node, Pointer};
use qg_crc32c::crc32c;
use qg_num::{Key, put_bytes, put_u32, put_u64};

/// Writes the text of a node over the bytes of a slot, whatever they held (on-disk format, "nodes and leaves").
///
/// `Node::has_text` tells whether the node has one. No memory is taken.
#[tactic(auto, unfolding(crate::specs::NodeText::node_text))]
pub fn write_node(node: &Node, bytes: &mut [u8])
    requires size { IsNodeSize (length bytes.old) }
    requires node { IsNode (length bytes.old) node.now }
    ensures text { bytes.new ≡ node_text (length bytes.old) node.now }

    // It is read again, at the address that its header names.
    ensures read { node_read (header_of node.now).address bytes.new ≡ Ok node.now }
{
    bytes.fill(0);
    let (checksum, covered) = bytes.split_at_mut(32);
    write_covered(node, covered);
    put_u32(checksum, 0, crc32c(covered));
}

#[tactic(auto, unfolding(crate::specs::NodeText::covered_text))]
fn write_covered(node: &Node, bytes: &mut [u8])
    requires size { IsNodeSize (32 + length bytes.old) }
    requires node { IsNode (32 + length bytes.old) node.now }
    requires zero { bytes.old ≡ zeros (length bytes.old) }
    ensures text { bytes.new ≡ covered_text (32 + length bytes.old) node.now }
    ensures fits { NodeFits node.now }
{
    let (head, room) = bytes.split_at_mut(69);
    match node {
        Node::Leaf { header, items } => {
            write_header(*header, items.len() as u32, head);
            write_items(items.as_slice(), room);
        }
        Node::Inner { header, pointers } => {
            write_header(*header, pointers.len() as u32, head);
            write_pointers(pointers.as_slice(), room);
        }
    }
}

#[tactic(auto, unfolding(crate::specs::NodeText::header_text, qg_num::specs::Fields::u64_bytes, qg_num::specs::Fields::u32_bytes))]
fn write_header(header: Header, count: u32, bytes: &mut [u8])
    requires { bytes.old ≡ zeros 69 }
    ensures text { bytes.new ≡ header_text header count }
    ensures fits { HeaderFits header }
{
    put_u64(bytes, 16, header.address.value());
    put_u64(bytes, 48, header.generation.value());
    put_u64(bytes, 56, header.owner.value());
    put_u32(bytes, 64, count);
    bytes[68] = header.level;
}

fn write_items(items: &[Item], room: &mut [u8])
    requires zero { room.old ≡ zeros (length room.old) }
    requires fits { items_bytes items.now ≤ length room.old }
    requires small { length room.old < 2 ^ 32 }
    ensures text { room.new ≡ leaf_text (length room.old) items.now }
    ensures fit { All ItemFits items.now }
{
    let mut end = room.len();
    for (i, item) in items.iter().enumerate() {
        end = write_item(item, ITEM_HEADER_BYTES * i, end, room);
    }
}

/// Writes an item's header at a place, and its body so that it ends at another. Answers where it begins.
fn write_item(item: &Item, place: usize, end: usize, room: &mut [u8]) -> usize
    requires fits { place + 25 + length item.now.body ≤ end }
    requires within { end ≤ length room.old }
    requires small { length room.old < 2 ^ 32 }
    ensures begin { result + length item.now.body ≡ end }
    ensures written { room.new ≡ take place room.old ++ (item_header end item.now
        ++ (slice_range room.old (place + 25) result ++ (item.now.body ++ drop end room.old))) }
    ensures fits { ItemFits item.now }
{
    let body = item.body.as_slice();
    let begin = end - body.len();
    put_bytes(room, begin, body);
    let header = item_header(item.key, begin as u32, body.len() as u32);
    put_bytes(room, place, &header);
    begin
}

#[tactic(auto, unfolding(qg_num::specs::Fields::u64_bytes, qg_num::specs::Fields::u32_bytes))]
fn item_header(key: Key, begin: u32, len: u32) -> [u8; ITEM_HEADER_BYTES]
    ensures text { result ≡ key_bytes key ++ u32_bytes begin ++ u32_bytes len }
    ensures fits { IsKey key }
{
    let mut header = [0; ITEM_HEADER_BYTES];
    key.write_at(&mut header, 0);
    put_u32(&mut header, 17, begin);
    put_u32(&mut header, 21, len);
    header
}

fn write_pointers(pointers: &[Pointer], room: &mut [u8])
    requires zero { room.old ≡ zeros (length room.old) }
    requires fits { 33 * length pointers.now ≤ length room.old }
    requires small { length room.old < 2 ^ 32 }
    ensures text { room.new ≡ inner_text (length room.old) pointers.now }
    ensures fit { All PointerFits pointers.now }
{
    for (i, pointer) in pointers.iter().enumerate() {
        let text = pointer_text(*pointer);
        put_bytes(room, POINTER_BYTES * i, &text);
    }
}

#[tactic(auto, unfolding(crate::specs::NodeText::pointer_text, qg_num::specs::Fields::u64_bytes))]
fn pointer_text(pointer: Pointer) -> [u8; POINTER_BYTES]
    ensures text { result ≡ pointer_text pointer }
    ensures fits { PointerFits pointer }
{
    let mut text = [0; POINTER_BYTES];
    pointer.key.write_at(&mut text, 0);
    put_u64(&mut text, 17, pointer.child.value());
    put_u64(&mut text, 25, pointer.generation.value());
    text
}
