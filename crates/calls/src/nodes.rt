// Nodes of calls. A key is told by its number alone.
ghost use Rattle.std.specs.Prelude.{◌≡◌, ◌↔◌, ◌≤◌, length, IfOk, IsTrue};
ghost use Rattle.std.specs.List.{All};
ghost use Rattle.qg_node.specs.Nodes.{own_items, own_pointers};
ghost use Rattle.qg_node.specs.NodeText.{IsNodeSize};
ghost use Rattle.qg_shape.specs.Filled.{HasShortBodies};
ghost use Rattle.qg_shape.specs.Parts.{IsInner, IsLeaf};

use call_lines::{Fault, add_word, told};
use qg_node::{Body, Header, Item, Items, Keyed, Node, Pointer, Pointers};
use qg_num::{Address, Generation, Key, RootId};
use std::alloc::Global;

/// Where each node lies.
pub(crate) const HERE: u64 = 1048576;

/// Where what a node is cut off goes, and where pointers lead to.
pub(crate) const THERE: u64 = 1064960;

/// The longest body of an item, in bytes.
const LONGEST_BODY: u64 = 1024;

/// The size of a node.
pub(crate) fn node_size(nodesize: u64) -> Result<u32, Fault>
    ensures { IfOk result (λ size. IsNodeSize size) }
{
    match nodesize {
        4096 => Ok(4096),
        16384 => Ok(16384),
        _ => Err(Fault::Unmet),
    }
}

/// The key with a number.
pub(crate) fn key_of(objectid: u64) -> Key {
    Key {
        objectid,
        kind: 0,
        offset: 0,
    }
}

/// A pointer with a number.
pub(crate) fn pointer_of(objectid: u64) -> Pointer {
    Pointer {
        key: key_of(objectid),
        child: Address::new(THERE),
        generation: Generation::new(9),
    }
}

/// So many even numbers, behind so many others.
pub(crate) fn even_from(alloc: Global, others: u64, count: u64) -> Result<Vec<u64>, Fault> {
    let mut keys = Vec::new(alloc);
    for i in 0..count {
        keys.push(others.wrapping_add(i).wrapping_mul(2))?;
    }
    Ok(keys)
}

/// A body of so many bytes, all 0.
pub(crate) fn body_of(alloc: Global, size: u64) -> Result<Body, Fault>
    ensures { IfOk result (λ body. length body ≤ 1024) }
{
    if size > LONGEST_BODY {
        return Err(Fault::Unmet);
    }
    let bytes = vec![in alloc; 0u8; size as usize]?;
    Ok(Body::from_slice(alloc, &bytes)?)
}

fn header(level: u8) -> Header {
    Header {
        address: Address::new(HERE),
        generation: Generation::new(9),
        owner: RootId::new(5),
        level,
    }
}

/// A leaf of items with these keys, each with so many bytes.
pub(crate) fn leaf(alloc: Global, keys: &[u64], size: u64) -> Result<Node, Fault>
    ensures { IfOk result IsLeaf }
{
    let mut items = Items::new(alloc);
    for key in keys {
        items.push(Item {
            key: key_of(*key),
            body: body_of(alloc, size)?,
        })?;
    }
    Ok(Node::Leaf {
        header: header(0),
        items,
    })
}

/// An inner node of pointers with these keys.
pub(crate) fn inner(alloc: Global, keys: &[u64]) -> Result<Node, Fault>
    ensures { IfOk result IsInner }
{
    let mut pointers = Pointers::new(alloc);
    for key in keys {
        pointers.push(pointer_of(*key))?;
    }
    Ok(Node::Inner {
        header: header(1),
        pointers,
    })
}

/// How many items a leaf has; an inner node has none.
pub(crate) fn count_items(node: &Node) -> u64
    ensures { result ≡ length (own_items node.now) }
{
    match node {
        Node::Leaf { items, .. } => items.len() as u64,
        Node::Inner { .. } => 0,
    }
}

/// How many pointers an inner node has; a leaf has none.
pub(crate) fn count_pointers(node: &Node) -> u64
    ensures { result ≡ length (own_pointers node.now) }
{
    match node {
        Node::Leaf { .. } => 0,
        Node::Inner { pointers, .. } => pointers.len() as u64,
    }
}

/// Whether no body is too long.
pub(crate) fn has_short_bodies(node: &Node) -> bool
    ensures { IsTrue result → HasShortBodies node.now }
{
    match node {
        Node::Leaf { items, .. } => items.as_slice().iter().all(|item| item.body.len() <= 1024),
        Node::Inner { .. } => true,
    }
}

/// How many there are, and the keys of the first and the last.
fn told_list<T: Keyed>(alloc: Global, list: &[T]) -> Result<String, Fault> {
    let (first, last) = match list {
        [] => return told(alloc, "none"),
        [only] => (only.key(), only.key()),
        [first, .., last] => (first.key(), last.key()),
    };
    let (count, first, last) = (list.len(), first.objectid, last.objectid);
    Ok(format!(in alloc; "{count} {first} {last}")?)
}

/// How many items or pointers a node has, and the keys of the first and the last.
pub(crate) fn told_span(alloc: Global, node: &Node) -> Result<String, Fault> {
    match node {
        Node::Leaf { items, .. } => told_list(alloc, items.as_slice()),
        Node::Inner { pointers, .. } => told_list(alloc, pointers.as_slice()),
    }
}

/// Each item of a leaf: its key and how long its body is.
pub(crate) fn told_items(alloc: Global, node: &Node) -> Result<String, Fault> {
    let Node::Leaf { items, .. } = node else {
        return Err(Fault::Unmet);
    };
    let mut answer = String::new(alloc);
    for item in items.as_slice() {
        let (key, length) = (item.key.objectid, item.body.len());
        add_word(&mut answer, format!(in alloc; "{key}+{length}")?.as_str())?;
    }
    Ok(answer)
}

/// The key of each pointer of an inner node.
pub(crate) fn told_pointers(alloc: Global, node: &Node) -> Result<String, Fault> {
    let Node::Inner { pointers, .. } = node else {
        return Err(Fault::Unmet);
    };
    let mut answer = String::new(alloc);
    for pointer in pointers.as_slice() {
        let key = pointer.key.objectid;
        add_word(&mut answer, format!(in alloc; "{key}")?.as_str())?;
    }
    Ok(answer)
}
