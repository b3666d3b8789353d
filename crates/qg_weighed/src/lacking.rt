// What a reference more takes.
ghost use Rattle.std.specs.Prelude.{◌≡◌, ◌+◌, ◌≤◌, ◌||◌, is_some, if◌then◌else◌};
ghost use Rattle.std.specs.Option.{option_copied};
ghost use Rattle.qg_extents.specs.Table.{book_of};
ghost use Rattle.qg_weighed.specs.Weight.{extent_record_bytes, has_record, has_reference, is_alike};
ghost use Rattle.qg_weighed.specs.Weight.{lacking, reference_bytes};

use qg_extents::Extents;
use qg_extents::refs::{Kept, Reference, What};
use qg_items::{EXTENT_DATA_REF_BYTES, EXTENT_ITEM_BYTES, SHARED_DATA_REF_BYTES};
use qg_node::ITEM_HEADER_BYTES;
use qg_num::Address;

/// What the item of a record takes: its header, and its body.
pub(crate) const RECORD_BYTES: u64 = (ITEM_HEADER_BYTES + EXTENT_ITEM_BYTES) as u64;

/// What a reference more takes, and with the first one the record, where one of two books has neither already (this
/// project's own). In the other it is looked up only where it comes.
pub(crate) fn lacking(
    held: &Extents,
    refs: &Extents,
    at: Address,
    what: &What,
    reference: &Reference,
) -> u64
    ensures { result ≡ lacking (book_of held.now at) (book_of refs.now at) what.now reference.now }
{
    let here = refs.kept(at);
    if has_reference(here, reference) {
        return 0;
    }
    lacking_of(held.kept(at), here, what, reference)
}

// What a reference more takes that is not there yet.
fn lacking_of(held: Option<&Kept>, here: Option<&Kept>, what: &What, reference: &Reference) -> u64
    ensures { let there = option_copied held.entry in result
        ≡ (if has_reference there reference.now then 0 else reference_bytes reference.now)
        + (if has_record there what.now || is_some (option_copied here.entry) then 0 else extent_record_bytes) }
{
    let mut bytes = 0;
    if !has_reference(held, reference) {
        bytes += reference_bytes(reference);
    }
    if here.is_none() && !has_record(held, what) {
        bytes += RECORD_BYTES;
    }
    bytes
}

// Whether a reference is there.
fn has_reference(kept: Option<&Kept>, reference: &Reference) -> bool
    ensures { result ≡ has_reference (option_copied kept.entry) reference.now }
{
    match kept {
        Some(kept) => kept.references.count(reference) > 0,
        None => false,
    }
}

// Whether the record that is there is the same.
fn has_record(kept: Option<&Kept>, what: &What) -> bool
    ensures { result ≡ has_record (option_copied kept.entry) what.now }
{
    match kept {
        Some(kept) => is_alike(what, &kept.what),
        None => false,
    }
}

// Whether both are nodes of one level, or data extents of one length.
fn is_alike(what: &What, other: &What) -> bool
    ensures { result ≡ is_alike what.now other.now }
{
    match (what.level, other.level) {
        (None, None) => what.bytes == other.bytes,
        (Some(level), Some(other)) => level == other,
        _ => false,
    }
}

/// What the item of a reference takes: its header, and its body.
pub(crate) fn reference_bytes(reference: &Reference) -> u64
    ensures exact { result ≡ reference_bytes reference.now }
    ensures few { result ≤ 53 }
{
    let body = match reference {
        Reference::KeyedBlock { .. } => 0,
        Reference::SharedBlock { .. } => 0,
        Reference::KeyedData { .. } => EXTENT_DATA_REF_BYTES,
        Reference::SharedData { .. } => SHARED_DATA_REF_BYTES,
    };
    (ITEM_HEADER_BYTES + body) as u64
}
