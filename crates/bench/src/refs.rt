// A book of references that is read, edited and written. `bench/refs.rs` does the same.
mod edits;
mod reading;

use crate::numbers::mix;
use crate::refs::edits::{edit_book, first_items};
use crate::refs::reading::read_book;
use crate::report::{Report, failed, timed};
use qg_node::Items;
use std::alloc::Global;
use std::io;
use std::rt::Clock;

/// Prints what a book gives that is read, edited and written: digests of what it holds before and after, and between
/// them the sum of the counts that were seen.
pub(crate) fn measure(rt: &(impl Clock + Print), alloc: Global, report: Report) -> io::Result<()> {
    let extents = if report.is_timed { 60000 } else { 60 };
    let edits = if report.is_timed { 1000000 } else { 1000 };
    let items = first_items(alloc, extents).map_err(failed)?;
    for _ in 0..report.rounds() {
        let (mut book, load_time) = timed(rt, || read_book(alloc, &items))?;
        let loaded = digest(&book.items(alloc).map_err(failed)?);
        let (seen, edit_time) = timed(rt, || edit_book(&mut book, extents, edits))?;
        let (items, write_time) = timed(rt, || Ok(book.items(alloc)?))?;
        let rows = [
            ("loaded", loaded, load_time),
            ("edited", seen, edit_time),
            ("written", digest(&items), write_time),
        ];
        report.print(rt, &rows)?;
    }
    Ok(())
}

/// One number of all keys and bytes of items.
fn digest(items: &Items) -> u64 {
    let mut sum = 0u64;
    for item in items.as_slice() {
        sum = mix(mix(sum, item.key.objectid), item.key.kind as u64);
        sum = mix(sum, item.key.offset);
        for byte in item.body.as_slice() {
            sum = mix(sum, *byte as u64);
        }
    }
    sum
}
