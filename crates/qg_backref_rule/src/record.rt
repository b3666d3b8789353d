// The record of what begins at an address.
ghost use Rattle.std.specs.Prelude.{◌≡◌};
ghost use Rattle.std.specs.List.{filter, sum_by};
ghost use Rattle.qg_image.specs.Owed.{is_record, is_record_of, is_recorded_once, node_flags};
ghost use Rattle.qg_refs.specs.declared.counted.Counted.{Counted};
ghost use Rattle.qg_backref_rule.specs.Judged.{what_of};

use crate::thing::Kind;
use qg_image::ExtentPart;
use qg_refs::Counted;

/// The sum of counts.
pub(crate) fn sum_of(told: &[Counted]) -> u128
    ensures { result ≡ sum_by (λ (entry : Counted). entry.count) told.now }
{
    let mut sum = 0;
    for entry in told {
        sum += entry.count as u128;
    }
    sum
}

/// Whether parts have exactly one record, that of what begins there with so many references; or none, where nothing
/// does.
pub(crate) fn is_recorded_once(kind: &Option<Kind>, refs: u128, parts: &[ExtentPart]) -> bool
    ensures { result ≡ is_recorded_once (what_of kind.now) refs (filter is_record parts.now) }
{
    let mut found = None;
    for part in parts {
        if is_record(part) {
            if found.is_some() {
                return false;
            }
            found = Some(*part);
        }
    }
    match found {
        Some(part) => is_record_of(kind, refs, &part),
        None => kind.is_none(),
    }
}

// Whether an item is a record.
fn is_record(part: &ExtentPart) -> bool
    ensures { result ≡ is_record part.now }
{
    match part {
        ExtentPart::Referenced { .. } => false,
        _ => true,
    }
}

// Whether an item is the record of what begins there, with so many references in all.
fn is_record_of(kind: &Option<Kind>, refs: u128, part: &ExtentPart) -> bool
    ensures { result ≡ is_record_of (what_of kind.now) refs part.now }
{
    match (kind, part) {
        (
            Some(Kind::Extent { bytes }),
            ExtentPart::DataRecord {
                bytes: told,
                extent,
                ..
            },
        ) => told == bytes && extent.flags == DATA && extent.refs as u128 == refs,
        (
            Some(
                Kind::Node {
                    level,
                    generation,
                    full,
                },
            ),
            ExtentPart::NodeRecord {
                level: told,
                extent,
                ..
            },
        ) => {
            *told == *level as u64
                && extent.flags == node_flags(*full)
                && extent.refs as u128 == refs
                && extent.generation == *generation
        }
        _ => false,
    }
}

// The flags of a data extent's record (on-disk format, EXTENT_ITEM).
const DATA: u64 = 1;

// The flags of a node's record (on-disk format, METADATA_ITEM).
fn node_flags(full: bool) -> u64
    ensures { result ≡ node_flags full }
{
    if full { 2 + 256 } else { 2 }
}
