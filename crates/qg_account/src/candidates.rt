// The groups that a change of owners can move.
ghost use Rattle.std.specs.Prelude.{◌≡◌, ◌==◌, ◌&&◌, ◌||◌, ℕ, [], ◌∷◌, IfOk, MatchOption, OnOk};
ghost use Rattle.std.specs.BTreeSet.{IsOrdered};
ghost use Rattle.std.specs.List.{list_any};
ghost use Rattle.std.specs.Ordering.{nat_cmp};
ghost use Rattle.qg_image.specs.Members.{is_member};
ghost use Rattle.qg_qgroups.specs.Groups.{has_number, is_kept};

use crate::members::groups_with;
use qg_num::{GroupId, NoMemory, RootId};
use qg_qgroups::Hierarchy;
use std::alloc::Global;
use std::collections::BTreeSet;

/// The numbers of the groups that have one of some subvolumes as a member, each once however many they have.
pub(crate) fn candidates(
    alloc: Global,
    hierarchy: &Hierarchy,
    subs: &[RootId],
) -> Result<BTreeSet<u64>, NoMemory>
    ensures has { IfOk result (λ found. (group : ℕ) → has_number group found.keys
        ≡ (list_any (is_member hierarchy.now group) subs.now && is_kept hierarchy.now group)) }
    ensures ordered { IfOk result (λ found. IsOrdered nat_cmp found) }
{
    let mut found = BTreeSet::new(alloc);
    for sub in subs {
        let groups = groups_with(alloc, hierarchy, *sub)?;
        put_all(&mut found, groups.as_slice())?;
    }
    Ok(found)
}

// Puts the numbers of groups into a set.
fn put_all(numbers: &mut BTreeSet<u64>, groups: &[GroupId]) -> Result<(), NoMemory>
    requires { IsOrdered nat_cmp numbers.old }
    ensures has { OnOk result ((other : ℕ) → has_number other numbers.new.keys
        ≡ (has_number other groups.now || has_number other numbers.old.keys)) }
    ensures ordered { IsOrdered nat_cmp numbers.new }
{
    for group in groups {
        put_number(numbers, group.number())?;
    }
    Ok(())
}

// Puts a number into a set.
fn put_number(numbers: &mut BTreeSet<u64>, number: u64) -> Result<(), NoMemory>
    ensures has { OnOk result ((other : ℕ)
        → has_number other numbers.new.keys ≡ (number == other || has_number other numbers.old.keys)) }
    ensures ordered { IsOrdered nat_cmp numbers.new }
{
    numbers.insert(number)?;
    Ok(())
}

/// Takes the least number out of a set, if it has any.
pub(crate) fn take_least(numbers: &mut BTreeSet<u64>) -> Option<u64>
    ensures taken { MatchOption result (numbers.old.keys ≡ []) (λ least. numbers.old.keys ≡ least ∷ numbers.new.keys) }
    ensures ordered { IsOrdered nat_cmp numbers.new }
{
    numbers.pop_first()
}
