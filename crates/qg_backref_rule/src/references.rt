// The references to what begins at an address.
ghost use Rattle.std.specs.Prelude.{◌≡◌, ◌≤◌, length, map, OnOk};
ghost use Rattle.std.specs.List.{filter_map, prefix_len};
ghost use Rattle.std.specs.Option.{option_map};
ghost use Rattle.std.specs.List.Sorted.{IsSortedBy};
ghost use Rattle.qg_image.specs.Owed.{are_references, reference_told};
ghost use Rattle.qg_image.specs.Record.{same_reference};
ghost use Rattle.qg_refs.specs.Order.{precedes};
ghost use Rattle.qg_backref_rule.specs.Judged.{count_told, counts_told};

use crate::owing::Owing;
use qg_image::ExtentPart;
use qg_refs::{Counted, Reference, is_same};
use std::alloc::AllocError;

/// Puts the references that parts record, each with its count, in the place of others.
pub(crate) fn put_told(told: &mut Vec<Counted>, parts: &[ExtentPart]) -> Result<(), AllocError>
    ensures { OnOk result (counts_told told.new.items ≡ filter_map reference_told parts.now) }
{
    told.clear();
    for part in parts {
        if let Some(entry) = entry_of(part) {
            told.push(entry)?;
        }
    }
    Ok(())
}

/// The reference that an item records, with its count; a record records none.
pub(crate) fn entry_of(part: &ExtentPart) -> Option<Counted>
    ensures { option_map count_told result ≡ reference_told part.now }
{
    match *part {
        ExtentPart::Referenced {
            reference,
            count,
            ..
        } => Some(Counted { reference, count }),
        _ => None,
    }
}

/// Puts the references that are owed in the place of others.
pub(crate) fn put_owed(owed: &mut Vec<Reference>, owings: &[Owing]) -> Result<(), AllocError>
    ensures { OnOk result (owed.new.items ≡ map (λ owing. owing.reference) owings.now) }
{
    owed.clear();
    for owing in owings {
        owed.push(owing.reference)?;
    }
    Ok(())
}

/// Whether the recorded references are those owed, with their counts. Both are in order.
pub(crate) fn are_references(told: &[Counted], owed: &[Reference]) -> bool
    requires told { IsSortedBy (λ a b. precedes a.reference b.reference) told.now }
    requires owed { IsSortedBy precedes owed.now }
    ensures { result ≡ are_references (counts_told told.now) owed.now }
{
    let mut left = owed;
    for entry in told {
        let times = times_first(left, &entry.reference);
        if times == 0 || times != entry.count as usize {
            return false;
        }
        left = &left[times..];
    }
    left.is_empty()
}

// How often a reference stands at the front.
fn times_first(references: &[Reference], reference: &Reference) -> usize
    ensures front { result ≡ prefix_len (same_reference reference.now) references.now }
    ensures within { result ≤ length references.now }
{
    references
        .iter()
        .take_while(|other| is_same(reference, other))
        .count()
}
