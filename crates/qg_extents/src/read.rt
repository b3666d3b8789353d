// The book that the extent tree's items tell.
ghost use Rattle.std.specs.Prelude.{◌≡◌, ◌<◌, false, length, None, IfOk, OnOk, IfErr, MatchOption};
ghost use Rattle.qg_tree_items.specs.Owed.{part_address};
ghost use Rattle.qg_extents.specs.Reading.{IsRun};
ghost use Rattle.qg_extents.specs.Table.{book_of};
ghost use Rattle.qg_extents.specs.BookRecords.{AreInOrder, IsTold, IsFault, IsEntryOf, is_entry, records_failure};

use crate::Extents;
use crate::fault::RefsFault;
use crate::gather::read_references;
use crate::head::{head_of, only_record};
use qg_num::{Address, NoMemory};
use qg_refs::Kept;
use qg_tree_items::image::ExtentPart;
use std::alloc::Global;

impl Extents {
    /// The book that parts of the extent tree tell, which stand by address. A node has so many bytes. The first address
    /// whose parts are not what a book may have there is answered (on-disk format, EXTENT_ITEM and what follows it).
    pub fn read(alloc: Global, nodesize: u32, parts: &[ExtentPart]) -> Result<Extents, RefsFault>
        requires { AreInOrder parts.now }
        ensures told { IfOk result (λ extents. IsTold nodesize parts.now (book_of extents)) }
        ensures sound { OnOk result (records_failure parts.now ≡ None) }
        ensures fault { IfErr result (IsFault (records_failure parts.now)) }
    {
        let mut extents = Extents::new(alloc);
        let mut from = 0;
        while from < parts.len() {
            let to = end_of_address(parts, from);
            let at = address_of(&parts[from]);
            let Some(kept) = read_entry(alloc, nodesize, &parts[from..to])? else {
                return Err(RefsFault::Broken(at));
            };
            extents.put(at, kept)?;
            from = to;
        }
        Ok(extents)
    }
}

// The address of a part.
fn address_of(part: &ExtentPart) -> Address
    ensures { result ≡ part_address part.now }
{
    match part {
        ExtentPart::DataRecord { address, .. } => *address,
        ExtentPart::NodeRecord { address, .. } => *address,
        ExtentPart::Referenced { address, .. } => *address,
    }
}

// Where the parts of one address end, from an index on.
fn end_of_address(parts: &[ExtentPart], from: usize) -> usize
    requires { from < length parts.now }
    ensures { IsRun parts.now from result }
{
    let at = address_of(&parts[from]);
    for to in from + 1..parts.len() {
        if address_of(&parts[to]) != at {
            return to;
        }
    }
    parts.len()
}

// What parts at one address tell, if a book may have it there.
fn read_entry(alloc: Global, nodesize: u32, here: &[ExtentPart]) -> Result<Option<Kept>, NoMemory>
    ensures { IfOk result (λ found. MatchOption found (is_entry here.now ≡ false) (IsEntryOf nodesize here.now)) }
{
    let Some(index) = only_record(here) else {
        return Ok(None);
    };
    let Some(head) = head_of(nodesize, &here[index]) else {
        return Ok(None);
    };
    let Some(references) = read_references(alloc, here, head.refs)? else {
        return Ok(None);
    };
    Ok(Some(Kept {
        what: head.what,
        full: head.full,
        references,
    }))
}
