// Calls of what an edit of a tree does to one node of 4096 bytes. Items take 85 bytes each, and have even keys from 0
// on, as pointers have.
ghost use Rattle.qg_edit.specs.Edits.{IsShort};

use crate::nodes::{
    body_of, count_pointers, even_from, inner, key_of, leaf, pointer_of, told_span,
};
use crate::shape::told_joined;
use call_lines::Fault;
use qg_edit::{Change, Edit, edit_leaf, merge, splice};
use qg_node::Node;
use qg_shape::is_thin;
use std::alloc::Global;

/// How many bytes the body of an item has.
const LENGTH: u64 = 60;

/// What a node has, and what was cut off it.
fn told_rest(alloc: Global, node: &Node, rest: Option<Node>) -> Result<String, Fault> {
    let front = told_span(alloc, node)?;
    let Some(rest) = rest else {
        return Ok(front);
    };
    let behind = told_span(alloc, &rest)?;
    Ok(format!(in alloc; "{front} / {behind}")?)
}

/// What an edit leaves of a leaf of so many items.
fn edited(alloc: Global, count: u64, key: u64, change: Change) -> Result<String, Fault>
    requires { IsShort change }
{
    let mut node = leaf(alloc, &even_from(alloc, 0, count)?, LENGTH)?;
    if !node.has_text(4096) {
        return Err(Fault::Unmet);
    }
    let key = key_of(key);
    let rest = edit_leaf(&mut node, 4096, Edit { key, change })?;
    told_rest(alloc, &node, rest)
}

/// What is left of an inner node of so many pointers, once those with these keys stand in the place of the one at an
/// index.
fn spliced(alloc: Global, count: u64, at: u64, keys: &[u64]) -> Result<String, Fault> {
    let mut node = inner(alloc, &even_from(alloc, 0, count)?)?;
    if !node.has_text(4096) || at >= count_pointers(&node) {
        return Err(Fault::Unmet);
    }
    let from = at as usize;
    let rest = match keys {
        [key] => splice(&mut node, 4096, from, from + 1, &[pointer_of(*key)])?,
        [key, other] => {
            let new = [pointer_of(*key), pointer_of(*other)];
            splice(&mut node, 4096, from, from + 1, &new)?
        }
        _ => return Err(Fault::Call),
    };
    told_rest(alloc, &node, rest)
}

/// What is left of a leaf of so many items, which is thin, and of one of so many others behind it.
fn merged(alloc: Global, count: u64, others: u64) -> Result<String, Fault> {
    let mut left = leaf(alloc, &even_from(alloc, 0, count)?, LENGTH)?;
    let mut right = leaf(alloc, &even_from(alloc, count, others)?, LENGTH)?;
    let are_nodes = left.has_text(4096) && right.has_text(4096);
    if !are_nodes || left.level() != right.level() || !is_thin(&left, 4096) {
        return Err(Fault::Unmet);
    }
    let joined = merge(&mut left, &mut right, 4096)?;
    told_joined(alloc, joined, &left, &right)
}

/// Makes a call.
pub(crate) fn answer(alloc: Global, verb: &str, numbers: &[u64]) -> Result<String, Fault> {
    match (verb, numbers) {
        ("insert", [count, key, length]) => {
            edited(
                alloc,
                *count,
                *key,
                Change::Insert(body_of(alloc, *length)?),
            )
        }
        ("replace", [count, key, length]) => {
            edited(
                alloc,
                *count,
                *key,
                Change::Replace(body_of(alloc, *length)?),
            )
        }
        ("remove", [count, key]) => edited(alloc, *count, *key, Change::Remove),
        ("clear", [count, key]) => edited(alloc, *count, *key, Change::Clear),
        ("splice", [count, at, keys @ ..]) => spliced(alloc, *count, *at, keys),
        ("merge", [count, others]) => merged(alloc, *count, *others),
        _ => Err(Fault::Call),
    }
}
