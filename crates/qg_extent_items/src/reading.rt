// What items tell a reader.
ghost use Rattle.std.specs.Prelude.{◌≡◌, ◌≤◌, ℕ, List, false, None, Some, map, length, IfOk, IsTrue, MatchOption, OnOk};
ghost use Rattle.std.specs.List.{find};
ghost use Rattle.qg_node.specs.declared.item.Item.{Item as ItemValue};
ghost use Rattle.qg_node.specs.Nodes.{is_ascending};
ghost use Rattle.qg_tree_items.specs.Types.{Referenced};
ghost use Rattle.qg_extent_items.specs.Laws.{AreAllowed};
ghost use Rattle.qg_tree_items.specs.Owed.{reference_told};
ghost use Rattle.qg_refs.specs.Book.{references_at};
ghost use Rattle.qg_extent_items.specs.Reading.{IsAdded, IsCountIn, IsFirst, IsHeadIn, data_ref_key, is_record_item};
ghost use Rattle.qg_extent_items.specs.Reading.{told_of};
ghost use Rattle.qg_extent_items.specs.Standing.{IsFreeNumber, IsStanding, is_reference_to, tells};
ghost use Rattle.qg_extent_items.specs.Told.{AreRecords, book_told, head_at, items_at};

use crate::Standing;
use qg_extents::{Head, head_of};
use qg_items::kind::EXTENT_DATA_REF;
use qg_node::Item;
use qg_num::{Address, Generation, Key, NoMemory};
use qg_refs::{RefList, Reference, is_same};
use qg_tree_items::TreePart;
use qg_tree_items::image::ExtentPart;
use std::alloc::Global;

/// What the record of an address tells, among the items there; none exactly where there is none (on-disk format,
/// EXTENT_ITEM and METADATA_ITEM). A node has so many bytes.
pub fn head_in(nodesize: u32, generation: Generation, here: &[Item]) -> Option<Head>
    ensures { (items : List ItemValue) (at : ℕ) → AreRecords items → AreAllowed generation items
        → here.now ≡ items_at items at → result ≡ head_at nodesize items at }
{
    for item in here {
        if let Some(head) = head_of_item(nodesize, generation, item) {
            return Some(head);
        }
    }
    None
}

/// How a reference to what begins at an address stands, among the items there (on-disk format, "backreferences").
pub fn standing_in(at: Address, reference: &Reference, here: &[Item]) -> Standing
    ensures { (items : List ItemValue) → AreRecords items → here.now ≡ items_at items at
        → IsStanding at reference.now items result }
{
    match teller_in(at, reference, here) {
        Some(standing) => standing,
        None => Standing {
            count: 0,
            number: free_number(at, here),
        },
    }
}

/// The references to what begins at an address, among the items there (on-disk format, "backreferences").
pub fn references_in(alloc: Global, here: &[Item]) -> Result<RefList, NoMemory>
    ensures { IfOk result (λ list. (nodesize at : ℕ) (items : List ItemValue) → AreRecords items
        → here.now ≡ items_at items at → list ≡ references_at (book_told nodesize items) at) }
{
    let mut references = RefList::new(alloc);
    for item in here {
        add_item(&mut references, item)?;
    }
    let _ascending = references.as_slice();
    Ok(references)
}

// Puts the reference that an item tells, if it isn't there yet.
fn add_item(references: &mut RefList, item: &Item) -> Result<(), NoMemory>
    ensures { OnOk result (IsAdded (told_of item.now) references.old references.new) }
{
    match ExtentPart::read(item, Generation::new(0)) {
        Some(part) => Ok(add_part(references, &part)?),
        None => Ok(()),
    }
}

fn add_part(references: &mut RefList, part: &ExtentPart) -> Result<(), NoMemory>
    ensures { OnOk result (IsAdded (reference_told part.now) references.old references.new) }
{
    match part {
        ExtentPart::DataRecord { .. } => Ok(()),
        ExtentPart::NodeRecord { .. } => Ok(()),
        ExtentPart::Referenced {
            reference,
            count,
            ..
        } => Ok(add_absent(references, *reference, *count)?),
    }
}

fn add_absent(references: &mut RefList, reference: Reference, count: u32) -> Result<(), NoMemory>
    ensures { OnOk result (IsAdded (Some (reference, count)) references.old references.new) }
{
    if count > 0 && references.count(&reference) == 0 {
        references.put(reference, count)?;
    }
    Ok(())
}

/// What an item tells that is a sound record, and that the tree may hold in an image of this generation. A node has so
/// many bytes.
pub fn head_of_item(nodesize: u32, generation: Generation, item: &Item) -> Option<Head>
    ensures { MatchOption result (is_record_item generation item.now ≡ false) (IsHeadIn nodesize item.now) }
{
    match ExtentPart::read(item, generation) {
        Some(part) => head_of(nodesize, &part),
        None => None,
    }
}

/// The count with which an item tells a reference to what begins at an address, if it tells that one.
pub fn count_in(at: Address, reference: &Reference, item: &Item) -> Option<u32>
    ensures { MatchOption result (tells at reference.now item.now ≡ false) (IsCountIn at reference.now item.now) }
{
    match ExtentPart::read(item, Generation::new(0)) {
        Some(part) => counted(at, reference, &part),
        None => None,
    }
}

// The count of a part that is this reference.
fn counted(at: Address, reference: &Reference, part: &ExtentPart) -> Option<u32>
    ensures { MatchOption result (is_reference_to at reference.now part.now ≡ false)
        (λ count. part.now ≡ Referenced at reference.now count) }
{
    match part {
        ExtentPart::DataRecord { .. } => None,
        ExtentPart::NodeRecord { .. } => None,
        ExtentPart::Referenced {
            address,
            reference: told,
            count,
        } => {
            if *address == at && is_same(reference, told) {
                Some(*count)
            } else {
                None
            }
        }
    }
}

// How the first item that tells a reference does so.
fn teller_in(at: Address, reference: &Reference, items: &[Item]) -> Option<Standing>
    ensures { MatchOption result (find (tells at reference.now) items.now ≡ None) (IsFirst at reference.now items.now) }
{
    for item in items {
        if let Some(count) = count_in(at, reference, item) {
            return Some(Standing {
                count,
                number: item.key.offset,
            });
        }
    }
    None
}

// The least number that no EXTENT_DATA_REF of an address has, among items whose keys ascend.
fn free_number(at: Address, items: &[Item]) -> u64
    ensures { IsTrue (is_ascending (map (λ item. item.key) items.now)) → IsFreeNumber at items.now result }
{
    let mut number = 0;
    for item in items {
        if item.key == data_ref_key(at, number) {
            number += 1;
        }
    }
    number
}

// The key of an EXTENT_DATA_REF.
fn data_ref_key(at: Address, number: u64) -> Key
    ensures { result ≡ data_ref_key at number }
{
    Key {
        objectid: at.value(),
        kind: EXTENT_DATA_REF,
        offset: number,
    }
}
