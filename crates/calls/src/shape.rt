// Calls on one node, and on two neighbours.
ghost use Rattle.std.specs.Prelude.{◌≡◌};
ghost use Rattle.qg_node.specs.NodeText.{IsNodeSize};
ghost use Rattle.qg_shape.specs.Parts.{AreAlike, IsInner, IsLeaf};

use crate::nodes::{
    THERE, body_of, count_items, count_pointers, even_from, has_short_bodies, inner, key_of, leaf,
    node_size, pointer_of, told_items, told_pointers, told_span,
};
use call_lines::{Fault, numbers_of, told, told_number};
use qg_node::{Item, Node};
use qg_num::{Address, Key};
use qg_shape::{
    Joined, child_for, find_item, insert_item, insert_pointer, is_overfull, is_thin, join,
    pointer_to, remove_item, remove_pointer, replace_body, set_pointer, split,
};
use std::alloc::Global;

/// What a node keeps that is cut, and what goes: where that lies, its generation, owner and level too.
fn split_node(alloc: Global, nodesize: u32, node: Node, newest: u64) -> Result<String, Fault>
    requires { IsNodeSize nodesize }
{
    let mut front = node;
    let most = nodesize as usize + 1049;
    if !has_short_bodies(&front) || !is_overfull(&front, nodesize) || !front.has_room(most) {
        return Err(Fault::Unmet);
    }
    let rest = split(&mut front, nodesize, newest as usize, Address::new(THERE))?;
    let (front, behind) = (told_span(alloc, &front)?, told_span(alloc, &rest)?);
    let header = rest.header();
    let (address, generation) = (header.address.value(), header.generation.value());
    let (owner, level) = (header.owner.value(), header.level);
    Ok(format!(in alloc; "{front} / {behind} / {address} {generation} {owner} {level}")?)
}

/// What two neighbours have once they are joined.
fn join_nodes(alloc: Global, nodesize: u32, left: Node, right: Node) -> Result<String, Fault>
    requires size { IsNodeSize nodesize }
    requires alike { AreAlike left right }
{
    let (mut left, mut right) = (left, right);
    let are_short = has_short_bodies(&left) && has_short_bodies(&right);
    let size = nodesize as usize;
    let fit = left.has_room(size) && right.has_room(size);
    if !are_short || !fit || !(is_thin(&left, nodesize) || is_thin(&right, nodesize)) {
        return Err(Fault::Unmet);
    }
    let joined = join(&mut left, &mut right, nodesize)?;
    told_joined(alloc, joined, &left, &right)
}

/// What became of two neighbours.
pub(crate) fn told_joined(
    alloc: Global,
    joined: Joined,
    left: &Node,
    right: &Node,
) -> Result<String, Fault> {
    let word = match joined {
        Joined::Whole => "whole",
        Joined::Parted => "parted",
    };
    let (left, right) = (told_span(alloc, left)?, told_span(alloc, right)?);
    Ok(format!(in alloc; "{word} {left} / {right}")?)
}

/// How full a node is.
fn filling(node: &Node, nodesize: u32) -> &'static str
    requires { IsNodeSize nodesize }
{
    match (is_thin(node, nodesize), is_overfull(node, nodesize)) {
        (true, false) => "thin",
        (false, false) => "filled",
        (false, true) => "overfull",
        (true, true) => "both",
    }
}

/// Where a key is among the items of a leaf, or goes.
fn found(alloc: Global, node: &Node, key: Key) -> Result<String, Fault> {
    let Node::Leaf { items, .. } = node else {
        return Err(Fault::Unmet);
    };
    if !node.has_text(16384) {
        return Err(Fault::Unmet);
    }
    match find_item(items.as_slice(), key) {
        Ok(place) => Ok(format!(in alloc; "at {place}")?),
        Err(place) => Ok(format!(in alloc; "before {place}")?),
    }
}

/// Which pointer of an inner node leads to a key.
fn led(alloc: Global, node: &Node, key: Key) -> Result<String, Fault> {
    let Node::Inner { pointers, .. } = node else {
        return Err(Fault::Unmet);
    };
    if !node.has_text(16384) {
        return Err(Fault::Unmet);
    }
    told_number(alloc, Some(child_for(pointers.as_slice(), key) as u64))
}

/// A call on a leaf of empty items with these keys, and what it has then. Of an item that is taken the key stands in
/// front.
fn edit_items(alloc: Global, verb: &str, numbers: &[u64], keys: &[u64]) -> Result<String, Fault> {
    let mut node = leaf(alloc, keys, 0)?;
    let count = count_items(&node);
    let mut taken = None;
    match (verb, numbers) {
        ("insert-item", [at, key, length]) if *at <= count => {
            let (key, body) = (key_of(*key), body_of(alloc, *length)?);
            insert_item(&mut node, *at as usize, Item { key, body })?;
        }
        ("replace-body", [at, length]) if *at < count => {
            replace_body(&mut node, *at as usize, body_of(alloc, *length)?);
        }
        ("remove-item", [at]) if *at < count => {
            taken = Some(remove_item(&mut node, *at as usize).key.objectid);
        }
        _ => return Err(Fault::Call),
    }
    let left = told_items(alloc, &node)?;
    match taken {
        Some(key) => Ok(format!(in alloc; "{key} / {left}")?),
        None => Ok(left),
    }
}

/// A call on an inner node of pointers with these keys, and what it has then. Of a pointer that is taken the key stands
/// in front.
fn edit_pointers(
    alloc: Global,
    verb: &str,
    numbers: &[u64],
    keys: &[u64],
) -> Result<String, Fault> {
    let mut node = inner(alloc, keys)?;
    let count = count_pointers(&node);
    let mut taken = None;
    match (verb, numbers) {
        ("insert-pointer", [at, key]) if *at < count => {
            insert_pointer(&mut node, *at as usize, pointer_of(*key))?;
        }
        ("set-pointer", [at, key]) if *at < count => {
            set_pointer(&mut node, *at as usize, pointer_of(*key));
        }
        ("remove-pointer", [at]) if *at < count => {
            taken = Some(remove_pointer(&mut node, *at as usize).key.objectid);
        }
        _ => return Err(Fault::Call),
    }
    let left = told_pointers(alloc, &node)?;
    match taken {
        Some(key) => Ok(format!(in alloc; "{key} / {left}")?),
        None => Ok(left),
    }
}

/// A call that changes one item or pointer, or tells of one, of a node with these keys.
fn answer_of_one(
    alloc: Global,
    verb: &str,
    numbers: &[u64],
    keys: &[u64],
) -> Result<String, Fault> {
    match (verb, numbers) {
        ("find", [key]) => found(alloc, &leaf(alloc, keys, 0)?, key_of(*key)),
        ("lead", [key]) => led(alloc, &inner(alloc, keys)?, key_of(*key)),
        ("first-key", []) => {
            let key = leaf(alloc, keys, 0)?.first_key();
            told_number(alloc, key.map(|key| key.objectid))
        }
        ("pointer-to", []) => {
            let pointer = pointer_to(&leaf(alloc, keys, 0)?);
            let (key, child) = (pointer.key.objectid, pointer.child.value());
            Ok(format!(in alloc; "{key} {child}")?)
        }
        ("insert-pointer" | "set-pointer" | "remove-pointer", _) => {
            edit_pointers(alloc, verb, numbers, keys)
        }
        _ => edit_items(alloc, verb, numbers, keys),
    }
}

/// Makes a call.
pub(crate) fn answer(alloc: Global, verb: &str, text: &str) -> Result<String, Fault> {
    if let Some((front, keys)) = text.split_once("/ ") {
        let (numbers, keys) = (numbers_of(alloc, front)?, numbers_of(alloc, keys)?);
        return answer_of_one(alloc, verb, &numbers, &keys);
    }
    let numbers = numbers_of(alloc, text)?;
    match (verb, numbers.as_slice()) {
        ("split-leaf", [size, count, length, newest]) => {
            let node = leaf(alloc, &even_from(alloc, 0, *count)?, *length)?;
            split_node(alloc, node_size(*size)?, node, *newest)
        }
        ("split-inner", [size, count, newest]) => {
            let node = inner(alloc, &even_from(alloc, 0, *count)?)?;
            split_node(alloc, node_size(*size)?, node, *newest)
        }
        ("join-leaves", [size, count, others, length]) => {
            let left = leaf(alloc, &even_from(alloc, 0, *count)?, *length)?;
            let right = leaf(alloc, &even_from(alloc, *count, *others)?, *length)?;
            join_nodes(alloc, node_size(*size)?, left, right)
        }
        ("join-inners", [size, count, others]) => {
            let left = inner(alloc, &even_from(alloc, 0, *count)?)?;
            let right = inner(alloc, &even_from(alloc, *count, *others)?)?;
            join_nodes(alloc, node_size(*size)?, left, right)
        }
        ("fill", [size, count, length]) => {
            let node = leaf(alloc, &even_from(alloc, 0, *count)?, *length)?;
            told(alloc, filling(&node, node_size(*size)?))
        }
        _ => Err(Fault::Call),
    }
}
