// Calls on a node and its text of 4096 bytes.
use crate::bytes::changed;
use crate::numbers::key_of;
use call_lines::{Fault, bytes_of, first_word, numbers_of, told};
use qg_node::{
    Body, Header, Item, Items, Node, Pointer, Pointers, ReadFault, read_node, write_node,
};
use qg_num::{Address, Generation, RootId};
use std::alloc::Global;

/// How many bytes a node has.
const NODE_BYTES: usize = 4096;

/// A leaf of no items.
pub(crate) fn empty(alloc: Global) -> Node {
    Node::Leaf {
        header: Header {
            address: Address::new(0),
            generation: Generation::new(0),
            owner: RootId::new(0),
            level: 0,
        },
        items: Items::new(alloc),
    }
}

/// A leaf of no items, or an inner node of no pointers: its address, its generation, its owner and its level.
fn begun(alloc: Global, verb: &str, numbers: &[u64]) -> Result<Node, Fault> {
    let [address, generation, owner, level] = numbers else {
        return Err(Fault::Call);
    };
    let header = Header {
        address: Address::new(*address),
        generation: Generation::new(*generation),
        owner: RootId::new(*owner),
        level: u8::try_from(*level).map_err(|_| Fault::Number)?,
    };
    if verb == "leaf" {
        let items = Items::new(alloc);
        return Ok(Node::Leaf { header, items });
    }
    let pointers = Pointers::new(alloc);
    Ok(Node::Inner { header, pointers })
}

/// Adds the item `OBJECTID KIND OFFSET / BODY` to a leaf, or the pointer `OBJECTID KIND OFFSET CHILD GENERATION` to an
/// inner node.
fn add(alloc: Global, node: &mut Node, text: &str) -> Result<(), Fault> {
    let (numbers, body) = text.split_once(" / ").unwrap_or((text, ""));
    match (node, numbers_of(alloc, numbers)?.as_slice()) {
        (Node::Leaf { items, .. }, [objectid, kind, offset]) => {
            let key = key_of(*objectid, *kind, *offset)?;
            let body = Body::from_slice(alloc, &bytes_of(alloc, body)?)?;
            items.push(Item { key, body })?;
        }
        (Node::Inner { pointers, .. }, [objectid, kind, offset, child, generation]) => {
            let key = key_of(*objectid, *kind, *offset)?;
            pointers.push(Pointer {
                key,
                child: Address::new(*child),
                generation: Generation::new(*generation),
            })?;
        }
        _ => return Err(Fault::Call),
    }
    Ok(())
}

/// The text of a node.
fn write(alloc: Global, node: &Node) -> Result<Vec<u8>, Fault> {
    if !node.has_text(NODE_BYTES) {
        return Err(Fault::Unmet);
    }
    let mut bytes = [0xee; NODE_BYTES];
    write_node(node, &mut bytes);
    Ok(Vec::from_slice(alloc, &bytes)?)
}

/// The header of a node, and how many items or pointers it has.
fn told_node(alloc: Global, node: &Node) -> Result<String, Fault> {
    let header = node.header();
    let (address, generation) = (header.address.value(), header.generation.value());
    let (owner, level) = (header.owner.value(), header.level);
    let count = match node {
        Node::Leaf { items, .. } => items.len(),
        Node::Inner { pointers, .. } => pointers.len(),
    };
    Ok(format!(in alloc; "{address} {generation} {owner} {level} {count}")?)
}

/// Reads the node at an address of bytes with changes, which stands in the place of the one before; or the first rule
/// that they break.
fn read(alloc: Global, bytes: &[u8], node: &mut Node, text: &str) -> Result<String, Fault> {
    let (address, changes) = first_word(text);
    let address = address.parse::<u64>().map_err(|_| Fault::Number)?;
    let bytes = changed(alloc, bytes, changes)?;
    if bytes.len() != NODE_BYTES {
        return Err(Fault::Unmet);
    }
    match read_node(alloc, &bytes, Address::new(address)) {
        Ok(read) => {
            *node = read;
            told_node(alloc, node)
        }
        Err(ReadFault::Bad(rule)) => Ok(format!(in alloc; "{rule:?}")?),
        Err(ReadFault::NoMemory) => Err(Fault::NoMemory),
    }
}

/// Makes a call.
pub(crate) fn answer(
    alloc: Global,
    bytes: &mut Vec<u8>,
    node: &mut Node,
    verb: &str,
    text: &str,
) -> Result<String, Fault> {
    match verb {
        "read" => return read(alloc, bytes, node, text),
        "write" => *bytes = write(alloc, node)?,
        "leaf" | "inner" => *node = begun(alloc, verb, &numbers_of(alloc, text)?)?,
        "add" => add(alloc, node, text)?,
        _ => return Err(Fault::Call),
    }
    told(alloc, "done")
}
