// Calls on the items of a quota tree, where subvolume 5 alone is live.
use call_lines::{Fault, add_group, add_word, bytes_of, numbers_of, told, told_number};
use qg_node::{Body, Header, Item, Items, Node};
use qg_num::{Address, Generation, GroupId, Key, RootId};
use qg_qgroups::QuotaState;
use qg_quota::{QuotaFault, from_items, to_items};
use std::alloc::Global;

/// The generation of the image.
const GENERATION: u64 = 7;

/// A leaf of no items.
pub(crate) fn empty(alloc: Global) -> Node {
    Node::Leaf {
        header: Header {
            address: Address::new(1048576),
            generation: Generation::new(GENERATION),
            owner: RootId::new(8),
            level: 0,
        },
        items: Items::new(alloc),
    }
}

/// Adds the item `OBJECTID KIND OFFSET`, with a body in hex behind `/` or with none.
fn add_item(alloc: Global, items: &mut Items, text: &str) -> Result<(), Fault> {
    let (key, body) = text.split_once(" / ").unwrap_or((text, ""));
    let numbers = numbers_of(alloc, key)?;
    let [objectid, kind, offset] = numbers.as_slice() else {
        return Err(Fault::Call);
    };
    let key = Key {
        objectid: *objectid,
        kind: u8::try_from(*kind).map_err(|_| Fault::Number)?,
        offset: *offset,
    };
    let body = Body::from_slice(alloc, &bytes_of(alloc, body)?)?;
    Ok(items.push(Item { key, body })?)
}

/// Each group with its counters and limits, and behind `:` each relation.
fn told_quota(alloc: Global, state: &QuotaState) -> Result<String, Fault> {
    let mut answer = String::new(alloc);
    for (number, group) in state.quota.groups.as_slice() {
        add_group(alloc, &mut answer, *number)?;
        let (rfer, excl) = (group.counters.rfer, group.counters.excl);
        let max_rfer = told_number(alloc, group.max_rfer)?;
        let max_excl = told_number(alloc, group.max_excl)?;
        let told = format!(in alloc; "{rfer} {excl} {max_rfer} {max_excl}")?;
        add_word(&mut answer, told.as_str())?;
    }
    add_word(&mut answer, ":")?;
    add_relations(alloc, &mut answer, state.quota.pairs.as_slice())?;
    Ok(answer)
}

/// Adds each relation to an answer: a member and its parent.
fn add_relations(
    alloc: Global,
    answer: &mut String,
    pairs: &[(GroupId, GroupId)],
) -> Result<(), Fault> {
    for (member, parent) in pairs {
        add_group(alloc, answer, *member)?;
        add_group(alloc, answer, *parent)?;
    }
    Ok(())
}

/// Whether two lists have the same keys and bodies, in the same order.
fn are_same(items: &[Item], others: &[Item]) -> bool {
    items.len() == others.len()
        && items.iter().zip(others).all(|(item, other)| {
            item.key == other.key && item.body.as_slice() == other.body.as_slice()
        })
}

/// Quota as the items of a leaf tell it, and whether the same items are written of it.
fn read(alloc: Global, node: &Node) -> Result<String, Fault> {
    let Node::Leaf { items, .. } = node else {
        return Err(Fault::Unmet);
    };
    if !node.has_text(4096) {
        return Err(Fault::Unmet);
    }
    let generation = Generation::new(GENERATION);
    let state = match from_items(alloc, items, &[RootId::new(5)], generation) {
        Ok(state) => state,
        Err(QuotaFault::Rule(rule)) => return Ok(format!(in alloc; "{rule:?}")?),
        Err(QuotaFault::NoMemory) => return Err(Fault::NoMemory),
    };
    let written = to_items(alloc, &state, generation)?;
    if !are_same(written.as_slice(), items.as_slice()) {
        return told(alloc, "written otherwise");
    }
    told_quota(alloc, &state)
}

/// Makes a call.
pub(crate) fn answer(
    alloc: Global,
    node: &mut Node,
    verb: &str,
    text: &str,
) -> Result<String, Fault> {
    match verb {
        "read" => return read(alloc, node),
        "fresh" => *node = empty(alloc),
        "item" => match node {
            Node::Leaf { items, .. } => add_item(alloc, items, text)?,
            Node::Inner { .. } => return Err(Fault::Unmet),
        },
        _ => return Err(Fault::Call),
    }
    told(alloc, "done")
}
