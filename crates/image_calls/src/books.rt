// Calls on a book of references to what lies at one address, an extent or a node, and on the items that stand for it.
ghost use Rattle.std.specs.Prelude.{◌≡◌, ◌<◌, IsTrue};
ghost use Rattle.qg_refs.specs.Book.{count_at};
ghost use Rattle.qg_refs.specs.Counts.{greatest_count};
ghost use Rattle.qg_extents.specs.Table.{book_of};

use crate::refs::reference_of;
use call_lines::{Fault, numbers_of, told, told_number};
use qg_extents::{Extents, fresh_records};
use qg_node::Items;
use qg_num::{Address, Generation};
use qg_refs::{Reference, What};
use qg_super::Sizes;
use qg_weighed::Weighed;
use std::alloc::Global;

/// Where that lies, in bytes.
const PLACE: u64 = 67174400;

/// A book of no references.
pub(crate) fn empty(alloc: Global) -> Result<Weighed, Fault> {
    Ok(Weighed::new(Extents::new(alloc))?)
}

/// Whether there may be one more of a reference.
fn has_room(weighed: &Weighed, at: Address, reference: &Reference) -> bool
    ensures { IsTrue result → count_at (book_of weighed.now.refs) at reference.now < greatest_count reference.now }
{
    let count = weighed.count_one(at, reference);
    match reference {
        Reference::KeyedBlock { .. } | Reference::SharedBlock { .. } => count == 0,
        Reference::KeyedData { .. } | Reference::SharedData { .. } => count < u32::MAX,
    }
}

/// What a reference leads to: a node of level 1, or an extent.
fn known(reference: &Reference) -> What {
    let level = match reference {
        Reference::KeyedBlock { .. } | Reference::SharedBlock { .. } => Some(1),
        Reference::KeyedData { .. } | Reference::SharedData { .. } => None,
    };
    What {
        bytes: 8192,
        level,
        generation: Generation::new(2),
    }
}

/// The item at an index: its key, and its body in hex.
pub(crate) fn told_item(alloc: Global, items: &Items, index: u64) -> Result<String, Fault> {
    let Some(item) = items.as_slice().get(index as usize) else {
        return told(alloc, "none");
    };
    let (objectid, kind, offset) = (item.key.objectid, item.key.kind, item.key.offset);
    let body = match item.body.as_slice() {
        [] => String::from_str(alloc, "none")?,
        bytes => hex::encode(alloc, bytes)?,
    };
    Ok(format!(in alloc; "{objectid} {kind} {offset} : {body}")?)
}

/// An item of an image of some sizes that is just made, whose first leaf lies at an address.
fn fresh_item(alloc: Global, numbers: &[u64]) -> Result<String, Fault> {
    let [nodesize, slots, sectors, at, index] = numbers else {
        return Err(Fault::Call);
    };
    let sizes = Sizes {
        nodesize: *nodesize,
        slots: *slots,
        sectors: *sectors,
    };
    let extents = fresh_records(alloc, sizes, Address::new(*at))?;
    told_item(alloc, &extents.items(alloc)?, *index)
}

/// An item of what stands.
fn item(alloc: Global, extents: &Extents, numbers: &[u64]) -> Result<String, Fault> {
    match numbers {
        [index] => told_item(alloc, &extents.items(alloc)?, *index),
        _ => Err(Fault::Call),
    }
}

/// Makes a call.
pub(crate) fn answer(
    alloc: Global,
    weighed: &mut Weighed,
    verb: &str,
    text: &str,
) -> Result<String, Fault> {
    let at = Address::new(PLACE);
    match verb {
        "fresh" => {
            *weighed = empty(alloc)?;
            return told(alloc, "done");
        }
        "item" => return item(alloc, weighed.refs(), &numbers_of(alloc, text)?),
        "fresh-item" => return fresh_item(alloc, &numbers_of(alloc, text)?),
        "open" => *weighed = Weighed::new(weighed.refs().clone()?)?,
        "hold" => {
            let copy = weighed.to_record()?;
            weighed.hold(copy);
        }
        "add" => {
            let reference = reference_of(alloc, text)?;
            if !has_room(weighed, at, &reference) {
                return Err(Fault::Unmet);
            }
            weighed.add_one(at, known(&reference), reference)?;
        }
        "drop" => {
            let reference = reference_of(alloc, text)?;
            if weighed.count_one(at, &reference) == 0 {
                return Err(Fault::Unmet);
            }
            weighed.drop_at(at, &reference);
        }
        _ => return Err(Fault::Call),
    }
    told_number(alloc, Some(weighed.bytes()))
}
