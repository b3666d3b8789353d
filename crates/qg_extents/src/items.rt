// The items of the extent tree.
ghost use Rattle.std.specs.Prelude.{◌≡◌, ◌+◌, ◌-◌, ◌≤◌, ◌<◌, ◌^◌, ◌++◌, [], All, IfOk, OnOk, IfSome};
ghost use Rattle.qg_items.specs.ItemText.{shared_data_ref_text};
ghost use Rattle.qg_items.specs.declared.extent.Reference.TheVariants.{KeyedData};
ghost use Rattle.qg_extents.specs.Written.{item_at, item_of_head, item_of_record, item_of_reference, items_of_book};
ghost use Rattle.qg_extents.specs.Written.{items_of_extent};
ghost use Rattle.qg_extents.specs.Written.{number_behind, record_flags, refs_of, CountedFits, EntryFits};

use crate::Head;
use qg_items::kind::{
    EXTENT_DATA_REF, EXTENT_ITEM, METADATA_ITEM, SHARED_BLOCK_REF, SHARED_DATA_REF, TREE_BLOCK_REF,
};
use qg_items::{
    EXTENT_DATA_REF_BYTES, EXTENT_ITEM_BYTES, ExtentDataRef, ExtentItem, SHARED_DATA_REF_BYTES,
    SharedDataRef, write_data_ref, write_extent, write_shared_data_ref,
};
use qg_node::{Body, Item, Items};
use qg_num::{Address, Generation, Ino, Key, NoMemory, RootId};
use qg_refs::{Counted, Kept, Reference};
use std::alloc::{AllocError, Global};
use std::collections::BTreeMap;

/// The items of what is kept, by address.
pub(crate) fn items_of_table(alloc: Global, table: &BTreeMap<u64, Kept>) -> Result<Items, NoMemory>
    ensures exact { IfOk result (λ items. items ≡ items_of_book table.now.entries) }
    ensures fit { OnOk result (All EntryFits table.now.entries) }
{
    let mut items = Items::new(alloc);
    for (at, kept) in table.iter() {
        put_extent(alloc, &mut items, *at, kept)?;
    }
    Ok(items)
}

// Puts the items of what is kept at an address at the end.
fn put_extent(alloc: Global, items: &mut Items, at: u64, kept: &Kept) -> Result<(), NoMemory>
    ensures ok { OnOk result (items.new ≡ items.old ++ items_of_extent (at, kept.now)) }
    ensures fits { OnOk result (EntryFits (at, kept.now)) }
{
    let references = kept.references.as_slice();
    let Some(refs) = total(references) else {
        return Err(NoMemory);
    };
    items.push(record_item(alloc, at, kept, refs)?)?;
    let mut number = 0;
    for entry in references {
        items.push(reference_item(alloc, at, number, entry)?)?;
        number = number_behind(number, &entry.reference);
    }
    Ok(())
}

// The sum of the counts, where it fits 64 bits. It does where there are fewer than 2^32 references.
fn total(references: &[Counted]) -> Option<u64>
    ensures { IfSome result (λ refs. refs ≡ refs_of references.now) }
{
    let mut refs: u64 = 0;
    for entry in references {
        refs = refs.checked_add(entry.count as u64)?;
    }
    Some(refs)
}

// The record of what is kept at an address: a data extent or a node.
fn record_item(alloc: Global, at: u64, kept: &Kept, refs: u64) -> Result<Item, AllocError>
    requires { refs ≡ refs_of kept.now.references }
    ensures exact { IfOk result (λ item. item ≡ item_of_record (at, kept.now)) }
    ensures refs { refs < 2 ^ 64 }
    ensures bytes { kept.now.what.bytes < 2 ^ 64 }
    ensures level { IfSome kept.now.what.level (λ level. level < 256) }
    ensures generation { kept.now.what.generation < 2 ^ 64 }
{
    let head = Head {
        what: kept.what,
        full: kept.full,
        refs,
    };
    head_item(alloc, at, head)
}

/// The item of the record that tells this of what begins at an address, in bytes: a data extent or a node (on-disk
/// format, EXTENT_ITEM and METADATA_ITEM).
pub fn head_item(alloc: Global, at: u64, head: Head) -> Result<Item, AllocError>
    ensures exact { IfOk result (λ item. item ≡ item_of_head at head) }
    ensures refs { head.refs < 2 ^ 64 }
    ensures bytes { head.what.bytes < 2 ^ 64 }
    ensures level { IfSome head.what.level (λ level. level < 256) }
    ensures generation { head.what.generation < 2 ^ 64 }
{
    let bytes = head.what.bytes;
    let generation = head.what.generation.value();
    let level = head.what.level;
    let extent = ExtentItem {
        refs: head.refs,
        generation: Generation::new(generation),
        flags: record_flags(level, head.full),
    };
    let mut body = [0; EXTENT_ITEM_BYTES];
    write_extent(&extent, &mut body);
    match level {
        None => item_at(alloc, at, EXTENT_ITEM, bytes, &body),
        Some(level) => item_at(alloc, at, METADATA_ITEM, level as u64, &body),
    }
}

// The flags of a record: DATA 1, or TREE_BLOCK 2 and with the full mark FULL_BACKREF 256.
fn record_flags(level: Option<u8>, full: bool) -> u64
    ensures { result ≡ record_flags level full }
{
    match level {
        None => 1,
        Some(_) if full => 2 + 256,
        Some(_) => 2,
    }
}

/// The item of a reference to what begins at an address, in bytes. An EXTENT_DATA_REF has this number in its key
/// (on-disk format, TREE_BLOCK_REF, EXTENT_DATA_REF, SHARED_BLOCK_REF and SHARED_DATA_REF).
pub fn reference_item(
    alloc: Global,
    at: u64,
    number: u64,
    entry: &Counted,
) -> Result<Item, AllocError>
    ensures exact { IfOk result (λ item. item ≡ item_of_reference at number entry.now.reference entry.now.count) }
    ensures fits { CountedFits entry.now }
{
    let count = entry.count;
    match entry.reference {
        Reference::KeyedBlock { root } => block_item(
            alloc,
            at,
            TREE_BLOCK_REF,
            root.value(),
            count,
        ),
        Reference::SharedBlock { parent } => {
            block_item(alloc, at, SHARED_BLOCK_REF, parent.value(), count)
        }
        Reference::KeyedData { root, ino, offset } => {
            keyed_item(alloc, at, number, root, ino, offset, count)
        }
        Reference::SharedData { parent } => shared_item(alloc, at, parent, count),
    }
}

// A reference to a node: its body is empty.
fn block_item(alloc: Global, at: u64, kind: u8, from: u64, count: u32) -> Result<Item, AllocError>
    ensures exact { IfOk result (λ item. item ≡ item_at at kind from []) }
    ensures from { from < 2 ^ 64 }
    ensures count { count < 2 ^ 32 }
{
    item_at(alloc, at, kind, from, &[])
}

// A keyed reference to a data extent, under this number.
fn keyed_item(
    alloc: Global,
    at: u64,
    number: u64,
    root: RootId,
    ino: Ino,
    offset: u64,
    count: u32,
) -> Result<Item, AllocError>
    ensures exact { IfOk result (λ item. item ≡ item_of_reference at number (KeyedData root ino offset) count) }
    ensures root { root < 2 ^ 64 }
    ensures ino { ino < 2 ^ 64 }
    ensures offset { offset < 2 ^ 64 }
    ensures count { count < 2 ^ 32 }
{
    let told = ExtentDataRef {
        root,
        objectid: ino,
        offset,
        count,
    };
    let mut body = [0; EXTENT_DATA_REF_BYTES];
    write_data_ref(&told, &mut body);
    item_at(alloc, at, EXTENT_DATA_REF, number, &body)
}

// A shared reference to a data extent.
fn shared_item(alloc: Global, at: u64, parent: Address, count: u32) -> Result<Item, AllocError>
    ensures exact { IfOk result (λ item. item
        ≡ item_at at SHARED_DATA_REF parent (shared_data_ref_text (record { count = count }))) }
    ensures parent { parent < 2 ^ 64 }
    ensures count { count < 2 ^ 32 }
{
    let mut body = [0; SHARED_DATA_REF_BYTES];
    write_shared_data_ref(&SharedDataRef { count }, &mut body);
    item_at(alloc, at, SHARED_DATA_REF, parent.value(), &body)
}

// The number of the next EXTENT_DATA_REF, behind a reference.
fn number_behind(number: u64, reference: &Reference) -> u64
    requires { number < 2 ^ 64 - 1 }
    ensures exact { result ≡ number_behind number reference.now }
    ensures bound { result ≤ number + 1 }
{
    match reference {
        Reference::KeyedData { .. } => number + 1,
        _ => number,
    }
}

// The item under a key of an address.
fn item_at(alloc: Global, at: u64, kind: u8, offset: u64, bytes: &[u8]) -> Result<Item, AllocError>
    ensures { IfOk result (λ item. item ≡ item_at at kind offset bytes.now) }
{
    let key = Key {
        objectid: at,
        kind,
        offset,
    };
    Ok(Item {
        key,
        body: Body::from_slice(alloc, bytes)?,
    })
}
