// Where a reference stands among others that ascend.
ghost use Rattle.std.specs.Prelude.{◌≡◌, ◌<◌, ◌≤◌, ◌↔◌, true, false, length, IfSome, IfNone, IsTrue};
ghost use Rattle.std.specs.List.{HoldsAt};
ghost use Rattle.std.specs.List.Sorted.{IsPartitionPoint};
ghost use Rattle.qg_refs.specs.Counts.{count_of, Ascend};
ghost use Rattle.qg_refs.specs.Order.{precedes};

use crate::Counted;
use crate::order::{is_before, is_same};
use qg_items::Reference;

/// How many references come before one, of some that ascend, each once.
pub(crate) fn place_of(entries: &[Counted], reference: &Reference) -> usize
    requires { Ascend entries.now }
    ensures bound { result ≤ length entries.now }
    ensures point { IsPartitionPoint (λ entry. precedes entry.reference reference.now ≡ true)
        (λ entry. precedes entry.reference reference.now ≡ false) entries.now result }
{
    entries.partition_point(|entry| is_before(&entry.reference, reference))
}

/// The index of a reference among some that ascend, each once; none exactly where it is not among them.
pub(crate) fn index_of(entries: &[Counted], reference: &Reference) -> Option<usize>
    requires { Ascend entries.now }
    ensures inside { IfSome result (λ index. index < length entries.now) }
    ensures at { IfSome result (λ index. HoldsAt (λ entry. entry.reference ≡ reference.now) entries.now index) }
    ensures counts { IfSome result
        (λ index. HoldsAt (λ entry. entry.count ≡ count_of entries.now reference.now) entries.now index) }
    ensures none { IfNone result (count_of entries.now reference.now ≡ 0) }
{
    let index = place_of(entries, reference);
    if index < entries.len() && is_same(&entries[index].reference, reference) {
        Some(index)
    } else {
        None
    }
}
