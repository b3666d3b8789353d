// Which edits of items an edit of a book is.
ghost use Rattle.std.specs.Prelude.{◌≡◌, ◌+◌, ◌-◌, ◌^◌, ◌<◌, IfOk, IfSome, OnOk};
ghost use Rattle.qg_refs.specs.Counts.{greatest_count};
ghost use Rattle.qg_extents.specs.Written.{ReferenceFits, item_of_head, item_of_reference};
ghost use Rattle.qg_extent_items.specs.Laws.{HeadFits, NumbersFit};
ghost use Rattle.qg_extent_items.specs.BookEdits.{
  edit_to_mark,
  edits_to_add,
  edits_to_drop,
  head_more,
  lessened,
  put_item,
  take_item,
};

use crate::Standing;
use qg_edit::{Change, Edit};
use qg_extents::{Head, head_item, reference_item};
use qg_node::Item;
use qg_num::{Address, NoMemory};
use qg_refs::{Counted, Reference, What};
use std::alloc::{AllocError, Global};

/// The edits of items that a reference more or less is: that of the reference's item, and then that of the record.
#[derive(Drop)]
pub struct BookEdits {
    /// The reference's item comes in, gets another count, or goes.
    pub of_reference: Edit,
    /// The record comes in, gets another sum, or goes.
    pub of_record: Edit,
}

/// The edits that add a reference to what begins at an address, where this is its record and the reference stands so
/// (on-disk format, "backreferences"). Where there is no record yet, it tells what is known now. A sum of counts that
/// doesn't fit 64 bits is answered as want of memory.
pub fn edits_to_add(
    alloc: Global,
    at: Address,
    what: What,
    reference: Reference,
    head: Option<Head>,
    standing: Standing,
) -> Result<BookEdits, NoMemory>
    requires room { standing.count < greatest_count reference }
    ensures exact { IfOk result (λ edits. edits ≡ edits_to_add at what reference head standing) }
    ensures fit { OnOk result (NumbersFit reference (head_more what head)) }
{
    let entry = Counted {
        reference,
        count: standing.count + 1,
    };
    let item = reference_item(alloc, at.value(), standing.number, &entry)?;
    let of_reference = put_item(standing.count > 0, item);
    let Some(more) = head_more(what, head) else {
        return Err(NoMemory);
    };
    let of_record = put_item(head.is_some(), head_item(alloc, at.value(), more)?);
    Ok(BookEdits {
        of_reference,
        of_record,
    })
}

/// The edits that drop a reference to what begins at an address, where this is its record and the reference stands so
/// (on-disk format, "backreferences"). Where it was the last one, nothing is left of either.
pub fn edits_to_drop(
    alloc: Global,
    at: Address,
    reference: Reference,
    head: Head,
    standing: Standing,
) -> Result<BookEdits, NoMemory>
    ensures exact { IfOk result (λ edits. edits ≡ edits_to_drop at reference head standing) }
    ensures fit { OnOk result (NumbersFit reference head) }
{
    let of_reference = lessen_reference(alloc, at, reference, standing)?;
    let of_record = lessen_record(alloc, at, head)?;
    Ok(BookEdits {
        of_reference,
        of_record,
    })
}

/// The edit that gives a node the full mark, where this is its record (on-disk format, FULL_BACKREF). A data extent's
/// record has no room for it.
pub fn edit_to_mark(alloc: Global, at: Address, head: Head) -> Result<Edit, NoMemory>
    ensures exact { IfOk result (λ edit. edit ≡ edit_to_mark at head) }
    ensures fit { OnOk result (HeadFits head) }
{
    let full = Head { full: true, ..head };
    Ok(put_item(true, head_item(alloc, at.value(), full)?))
}

// What the record tells with a reference more, where the sum fits its field.
fn head_more(what: What, head: Option<Head>) -> Option<Head>
    ensures { IfSome result (λ more. more ≡ head_more what head) }
{
    match head {
        Some(head) => Some(Head {
            refs: head.refs.checked_add(1)?,
            ..head
        }),
        None => Some(Head {
            what,
            full: false,
            refs: 1,
        }),
    }
}

// One less of a reference.
fn lessen_reference(
    alloc: Global,
    at: Address,
    reference: Reference,
    standing: Standing,
) -> Result<Edit, AllocError>
    ensures exact { IfOk result
        (λ edit. edit ≡ lessened standing.count (item_of_reference at standing.number reference)) }
    ensures fits { OnOk result (ReferenceFits reference) }
{
    let is_last = standing.count == 1;
    let count = if is_last {
        1
    } else {
        standing.count.saturating_sub(1)
    };
    let item = reference_item(
        alloc,
        at.value(),
        standing.number,
        &Counted { reference, count },
    )?;
    Ok(if is_last {
        take_item(item)
    } else {
        put_item(true, item)
    })
}

// One reference less in the sum.
fn lessen_record(alloc: Global, at: Address, head: Head) -> Result<Edit, AllocError>
    ensures exact { IfOk result
        (λ edit. edit ≡ lessened head.refs (λ refs. item_of_head at (record head { refs = refs }))) }
    ensures fits { OnOk result (HeadFits head) }
{
    if head.refs == 1 {
        return Ok(take_item(head_item(alloc, at.value(), head)?));
    }
    let less = Head {
        refs: head.refs.saturating_sub(1),
        ..head
    };
    Ok(put_item(true, head_item(alloc, at.value(), less)?))
}

// An item comes in, or the one with its key gets its body.
fn put_item(there: bool, item: Item) -> Edit
    ensures { result ≡ put_item there item }
{
    let key = item.key;
    let change = if there {
        Change::Replace(item.body)
    } else {
        Change::Insert(item.body)
    };
    Edit { key, change }
}

// An item goes.
fn take_item(item: Item) -> Edit
    ensures { result ≡ take_item item }
{
    Edit {
        key: item.key,
        change: Change::Remove,
    }
}
