// Sets of groups' numbers.
ghost use Rattle.std.specs.Prelude.{◌≡◌, ◌==◌, ◌&&◌, ◌||◌, ℕ, [], ◌∷◌, not, MatchOption, IfOk, OnOk, OnErr};
ghost use Rattle.std.specs.List.{filter};
ghost use Rattle.std.specs.Ordering.{nat_cmp};
ghost use Rattle.std.specs.BTreeSet.{IsOrdered};
ghost use Rattle.qg_machine.specs.Table.{with_number};
ghost use Rattle.qg_qgroups.specs.Groups.{has_number};

use crate::RootList;
use qg_num::{GroupId, GroupList, NoMemory, RootId};
use std::alloc::{AllocError, Global};
use std::collections::BTreeSet;

/// Whether a number is in a set.
pub(crate) fn has_number(numbers: &BTreeSet<u64>, number: u64) -> bool
    ensures { result ≡ has_number number numbers.now.keys }
{
    numbers.contains(&number)
}

/// Puts a number into a set. Where memory is refused, nothing has changed.
pub(crate) fn put_number(numbers: &mut BTreeSet<u64>, number: u64) -> Result<(), NoMemory>
    ensures ok { OnOk result (numbers.new.keys ≡ with_number number numbers.old.keys) }
    ensures has { OnOk result ((other : ℕ)
        → has_number other numbers.new.keys ≡ (number == other || has_number other numbers.old.keys)) }
    ensures err { OnErr result (numbers.new.keys ≡ numbers.old.keys) }
    ensures ordered { IsOrdered nat_cmp numbers.new }
{
    numbers.insert(number)?;
    Ok(())
}

/// Takes a number out of a set.
pub(crate) fn take_number(numbers: &mut BTreeSet<u64>, number: u64)
    requires { IsOrdered nat_cmp numbers.old }
    ensures left { numbers.new.keys ≡ filter (λ kept. not (kept == number)) numbers.old.keys }
    ensures has { (other : ℕ)
        → has_number other numbers.new.keys ≡ (not (number == other) && has_number other numbers.old.keys) }
    ensures ordered { IsOrdered nat_cmp numbers.new }
{
    numbers.remove(&number);
}

/// Takes the least number out of a set, if it has any.
pub(crate) fn take_least(numbers: &mut BTreeSet<u64>) -> Option<u64>
    ensures taken { MatchOption result (numbers.old.keys ≡ []) (λ least. numbers.old.keys ≡ least ∷ numbers.new.keys) }
    ensures ordered { IsOrdered nat_cmp numbers.new }
{
    numbers.pop_first()
}

/// The groups of the numbers of a set, ascending.
pub(crate) fn groups_of(alloc: Global, numbers: &BTreeSet<u64>) -> Result<GroupList, AllocError>
    ensures { IfOk result (λ groups. groups ≡ numbers.now.keys) }
{
    let mut groups = GroupList::new(alloc);
    for number in numbers {
        groups.push(GroupId::from_number(*number))?;
    }
    Ok(groups)
}

/// The subvolumes of the numbers of a set, ascending.
pub(crate) fn subvolumes_of(alloc: Global, numbers: &BTreeSet<u64>) -> Result<RootList, AllocError>
    ensures { IfOk result (λ subs. subs ≡ numbers.now.keys) }
{
    let mut subs = RootList::new(alloc);
    for number in numbers {
        subs.push(RootId::new(*number))?;
    }
    Ok(subs)
}
