// What one book takes.
ghost use Rattle.std.specs.Prelude.{◌≡◌, ◌+◌, IfOk};
ghost use Rattle.qg_weighed.specs.Weight.{extent_bytes, table_bytes};

use crate::lacking::{RECORD_BYTES, reference_bytes};
use qg_extents::refs::Kept;
use qg_num::NoMemory;
use std::collections::BTreeMap;

/// What the items take that stand for a table. A sum that doesn't fit 64 bits is answered as want of memory.
pub(crate) fn table_bytes(table: &BTreeMap<u64, Kept>) -> Result<u64, NoMemory>
    ensures { IfOk result (λ bytes. bytes ≡ table_bytes table.now.entries) }
{
    let mut bytes = 0;
    for (_at, kept) in table.iter() {
        bytes = plus(bytes, extent_bytes(kept)?)?;
    }
    Ok(bytes)
}

// What the items take of what is kept at an address.
fn extent_bytes(kept: &Kept) -> Result<u64, NoMemory>
    ensures { IfOk result (λ bytes. bytes ≡ extent_bytes kept.now) }
{
    let mut bytes = RECORD_BYTES;
    for entry in kept.references.as_slice() {
        bytes = plus(bytes, reference_bytes(&entry.reference))?;
    }
    Ok(bytes)
}

/// The sum, where it fits 64 bits.
pub(crate) fn plus(bytes: u64, more: u64) -> Result<u64, NoMemory>
    ensures { IfOk result (λ sum. sum ≡ bytes + more) }
{
    match bytes.checked_add(more) {
        Some(sum) => Ok(sum),
        None => Err(NoMemory),
    }
}
