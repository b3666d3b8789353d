// Sets of pairs of groups' numbers.
ghost use Rattle.std.specs.Prelude.{◌≡◌, ◌+◌, ◌==◌, ◌&&◌, ◌||◌, ℕ, false, not, length, if◌then◌else◌, MatchOption};
ghost use Rattle.std.specs.Prelude.{IfOk, IsTrue, OnOk, OnErr};
ghost use Rattle.std.specs.List.{filter};
ghost use Rattle.std.specs.Ordering.{nat_cmp};
ghost use Rattle.std.specs.BTreeSet.{IsOrdered};
ghost use Rattle.qg_machine.specs.GroupChange.{has_pair, same_pair, with_pair};
ghost use Rattle.qg_qgroups.specs.Groups.{has_number, pair_cmp};
ghost use Rattle.qg_qgroups.specs.Kept.{PairsFit};

use crate::numbers::put_number;
use qg_num::{GroupId, NoMemory, Sequence};
use std::alloc::{AllocError, Global};
use std::collections::BTreeSet;

/// Whether two numbers are a pair of a set.
pub(crate) fn has_pair(pairs: &BTreeSet<(u64, u64)>, of: u64, other: u64) -> bool
    ensures { result ≡ has_pair of other pairs.now.keys }
{
    pairs.contains(&(of, other))
}

/// Puts a pair into a set. Where memory is refused, nothing has changed.
pub(crate) fn put_pair(
    pairs: &mut BTreeSet<(u64, u64)>,
    of: u64,
    other: u64,
) -> Result<(), NoMemory>
    requires fit { PairsFit pairs.old }
    ensures ok { OnOk result (pairs.new.keys ≡ with_pair (of, other) pairs.old.keys) }
    ensures has { OnOk result ((a b : ℕ)
        → has_pair a b pairs.new.keys ≡ (same_pair (a, b) (of, other) || has_pair a b pairs.old.keys)) }
    ensures fit { PairsFit pairs.new }
    ensures err { OnErr result (pairs.new.keys ≡ pairs.old.keys) }
    ensures ordered { IsOrdered pair_cmp pairs.new }
{
    pairs.insert((of, other))?;
    Ok(())
}

/// Takes a pair out of a set.
pub(crate) fn take_pair(pairs: &mut BTreeSet<(u64, u64)>, of: u64, other: u64)
    requires ordered { IsOrdered pair_cmp pairs.old }
    requires fit { PairsFit pairs.old }
    ensures left { pairs.new.keys ≡ filter (λ pair. not (same_pair pair (of, other))) pairs.old.keys }
    ensures has { (a b : ℕ)
        → has_pair a b pairs.new.keys ≡ (not (same_pair (a, b) (of, other)) && has_pair a b pairs.old.keys) }
    ensures fewer { length pairs.new.keys + (if has_pair of other pairs.old.keys then 1 else 0)
        ≡ length pairs.old.keys }
    ensures fit { PairsFit pairs.new }
    ensures ordered { IsOrdered pair_cmp pairs.new }
{
    pairs.remove(&(of, other));
}

/// The least number that a number is paired with, and none where it is with none.
pub(crate) fn first_other(pairs: &BTreeSet<(u64, u64)>, of: u64) -> Option<u64>
    requires fit { PairsFit pairs.now }
    ensures { MatchOption result ((other : ℕ) → has_pair of other pairs.now.keys ≡ false)
        (λ other. IsTrue (has_pair of other pairs.now.keys)) }
{
    match pairs.range((of, 0)..=(of, u64::MAX)).next() {
        Some(pair) => Some(pair.1),
        None => None,
    }
}

/// Puts each number that a number is paired with into a set.
pub(crate) fn put_others(
    pairs: &BTreeSet<(u64, u64)>,
    of: u64,
    into: &mut BTreeSet<u64>,
) -> Result<(), NoMemory>
    requires fit { PairsFit pairs.now }
    requires ordered { IsOrdered nat_cmp into.old }
    ensures ordered { IsOrdered nat_cmp into.new }
    ensures has { OnOk result ((other : ℕ)
        → has_number other into.new.keys ≡ (has_number other into.old.keys || has_pair of other pairs.now.keys)) }
{
    for pair in pairs.range((of, 0)..=(of, u64::MAX)) {
        put_number(into, pair.1)?;
    }
    Ok(())
}

/// Takes each pair of a number out of a set, and the same the other way round out of another.
pub(crate) fn take_others(
    pairs: &mut BTreeSet<(u64, u64)>,
    turned: &mut BTreeSet<(u64, u64)>,
    of: u64,
)
    requires ordered { IsOrdered pair_cmp pairs.old }
    requires turned_ordered { IsOrdered pair_cmp turned.old }
    requires fit { PairsFit pairs.old }
    requires turned_fit { PairsFit turned.old }
    requires same { (a b : ℕ) → has_pair b a turned.old.keys ≡ has_pair a b pairs.old.keys }
    ensures left { pairs.new.keys ≡ filter (λ pair. not (pair.0 == of)) pairs.old.keys }
    ensures same { (a b : ℕ) → has_pair b a turned.new.keys ≡ has_pair a b pairs.new.keys }
    ensures ordered { IsOrdered pair_cmp pairs.new × IsOrdered pair_cmp turned.new }
    ensures fit { PairsFit pairs.new × PairsFit turned.new }
{
    while let Some(other) = first_other(pairs, of) {
        take_pair(pairs, of, other);
        take_pair(turned, other, of);
    }
}

/// The pairs of a set, ascending.
pub(crate) fn pairs_of(
    alloc: Global,
    numbers: &BTreeSet<(u64, u64)>,
) -> Result<Sequence<(GroupId, GroupId)>, AllocError>
    ensures { IfOk result (λ pairs. pairs ≡ numbers.now.keys) }
{
    let mut pairs = Sequence::new(alloc);
    for pair in numbers {
        pairs.push((GroupId::from_number(pair.0), GroupId::from_number(pair.1)))?;
    }
    Ok(pairs)
}
