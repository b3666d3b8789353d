// Calls on a list of references.
use call_lines::{Fault, first_word, numbers_of, told, told_if, told_number};
use qg_num::{Address, Ino, RootId};
use qg_refs::{RefList, Reference, is_before};
use std::alloc::Global;

/// A reference: `tree ROOT`, `file ROOT INO OFFSET`, `node PARENT` or `leaf PARENT`.
pub(crate) fn reference_of(alloc: Global, text: &str) -> Result<Reference, Fault> {
    let (kind, text) = first_word(text);
    let numbers = numbers_of(alloc, text)?;
    match (kind, numbers.as_slice()) {
        ("tree", [root]) => Ok(Reference::KeyedBlock {
            root: RootId::new(*root),
        }),
        ("file", [root, ino, offset]) => Ok(Reference::KeyedData {
            root: RootId::new(*root),
            ino: Ino::new(*ino),
            offset: *offset,
        }),
        ("node", [parent]) => Ok(Reference::SharedBlock {
            parent: Address::new(*parent),
        }),
        ("leaf", [parent]) => Ok(Reference::SharedData {
            parent: Address::new(*parent),
        }),
        _ => Err(Fault::Call),
    }
}

/// Whether the first of two references stands before the second.
fn are_in_order(alloc: Global, text: &str) -> Result<bool, Fault> {
    let Some((first, second)) = text.split_once(" / ") else {
        return Err(Fault::Call);
    };
    let (first, second) = (reference_of(alloc, first)?, reference_of(alloc, second)?);
    Ok(is_before(&first, &second))
}

/// One less of a reference, if it is there.
fn drop_one(list: &mut RefList, reference: &Reference) -> bool {
    let is_there = list.count(reference) > 0;
    if is_there {
        list.drop_one(reference);
    }
    is_there
}

/// Makes a call.
pub(crate) fn answer(
    alloc: Global,
    list: &mut RefList,
    verb: &str,
    text: &str,
) -> Result<String, Fault> {
    match verb {
        "before" => return told_if(alloc, are_in_order(alloc, text)?),
        "entries" => return told_number(alloc, Some(list.len() as u64)),
        "empty" => return told_if(alloc, list.is_empty()),
        _ => {}
    }
    let reference = reference_of(alloc, text)?;
    match verb {
        "count" => told_number(alloc, Some(list.count(&reference) as u64)),
        "drop" => told_if(alloc, drop_one(list, &reference)),
        "add" if list.count(&reference) < u32::MAX => {
            list.add(reference)?;
            told(alloc, "done")
        }
        _ => Err(Fault::Call),
    }
}
