// Where the change of a reference stands among others that ascend.
ghost use Rattle.std.specs.Prelude.{◌≡◌, ◌<◌, ◌≤◌, true, false, length, IfSome, IfNone, None};
ghost use Rattle.std.specs.List.{HoldsAt};
ghost use Rattle.std.specs.List.Sorted.{IsPartitionPoint};
ghost use Rattle.qg_refs.specs.Order.{precedes};
ghost use Rattle.qg_delayed.specs.Changes.{ChangesAscend, change_of};

use crate::Change;
use qg_items::Reference;
use qg_refs::{is_before, is_same};

/// How many changes are of references that come before one.
pub(crate) fn place_of(changes: &[Change], reference: &Reference) -> usize
    requires { ChangesAscend changes.now }
    ensures bound { result ≤ length changes.now }
    ensures point { IsPartitionPoint (λ change. precedes change.reference reference.now ≡ true)
        (λ change. precedes change.reference reference.now ≡ false) changes.now result }
{
    changes.partition_point(|change| is_before(&change.reference, reference))
}

/// The index of the change of a reference; none exactly where there is none.
pub(crate) fn index_of(changes: &[Change], reference: &Reference) -> Option<usize>
    requires { ChangesAscend changes.now }
    ensures inside { IfSome result (λ index. index < length changes.now) }
    ensures at { IfSome result (λ index. HoldsAt (λ change. change.reference ≡ reference.now) changes.now index) }
    ensures none { IfNone result (change_of reference.now changes.now ≡ None) }
{
    let index = place_of(changes, reference);
    if index < changes.len() && is_same(&changes[index].reference, reference) {
        Some(index)
    } else {
        None
    }
}
