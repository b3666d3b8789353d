// References in order.
ghost use Rattle.std.specs.Prelude.{◌≡◌};
ghost use Rattle.std.specs.Ordering.{is_lt};
ghost use Rattle.std.specs.List.Sorted.{IsPermutation, IsSortedBy};
ghost use Rattle.qg_refs.specs.Order.{precedes};

use qg_refs::{Counted, Reference, is_before};
use std::cmp::Ordering;

// How one reference stands to another.
fn compare(reference: &Reference, other: &Reference) -> Ordering
    ensures { is_lt result ≡ precedes reference.now other.now }
{
    if is_before(reference, other) {
        Ordering::Less
    } else if is_before(other, reference) {
        Ordering::Greater
    } else {
        Ordering::Equal
    }
}

/// Orders references.
pub(crate) fn sort(references: &mut Vec<Reference>)
    ensures moved { IsPermutation references.old.items references.new.items }
    ensures sorted { IsSortedBy precedes references.new.items }
{
    references.sort_unstable_by(|a, b| compare(a, b));
}

/// Orders counted references.
pub(crate) fn sort_counted(entries: &mut Vec<Counted>)
    ensures moved { IsPermutation entries.old.items entries.new.items }
    ensures sorted { IsSortedBy (λ a b. precedes a.reference b.reference) entries.new.items }
{
    entries.sort_unstable_by(|a, b| compare(&a.reference, &b.reference));
}
