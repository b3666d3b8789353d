// The counters of groups, by the sets of those who reach each element.
ghost use Rattle.std.specs.Prelude.{◌≡◌, ◌<◌, ◌+◌, ◌^◌, ℕ, Some, true, length, map, slice_get, IfOk};
ghost use Rattle.std.specs.List.{All, flat_map};
ghost use Rattle.std.specs.List.Sorted.{IsStrictlyIncreasing};
ghost use Rattle.qg_qgroup_counts.specs.Above.{list_at};
ghost use Rattle.qg_qgroup_counts.specs.Portions.{bytes_where, given, HasRoom};
ghost use Rattle.qg_qgroup_counts.specs.Groups.{AreWithin, counted_for, is_above, IsUnseen, HaveHits, HasRoomFor};
ghost use Rattle.qg_qgroup_counts.specs.Groups.{hits_by};
ghost use Rattle.qg_qgroup_counts.specs.Groups.{hit_once};

use crate::counting::{Portion, sums_by_set};
use crate::{Reached, SetId};
use qg_num::{Counters, NoMemory, Sequence};
use std::alloc::{AllocError, Global};

/// What is counted of a group, and how often the set that was looked at last has hit it (this project's own).
#[derive(Clone, Copy)]
pub(crate) struct Tally {
    /// What the sets up to here count.
    counters: Counters,
    /// One more than the number of the set that hit it last; 0 if none has.
    seen: usize,
    /// How many members of that set are members of the group.
    hits: usize,
}

/// The counters of each of so many groups: the bytes of what its members reach, and of what nobody else reaches
/// (btrfs-qgroup(8), "referenced" and "exclusive").
///
/// `above` has for each subvolume the indices of the groups that it is a member of, ascending. Bytes are summed by set
/// first, so each set's members are told once, however many elements have it.
pub fn group_counters(
    alloc: Global,
    reached: &Reached,
    portions: &[Portion],
    above: &[Sequence<usize>],
    groups: usize,
) -> Result<Vec<Counters>, NoMemory>
    requires inside { All (λ portion. portion.set < length reached.now.sets.rows.items) portions.now }
    requires small { bytes_where (λ _. true) portions.now < 2 ^ 64 }
    requires places { AreWithin groups above.now }
    requires once { All IsStrictlyIncreasing above.now }
    ensures all { IfOk result (λ counters. length counters.items ≡ groups) }
    ensures each { IfOk result (λ counters. (group : ℕ) → group < groups → slice_get counters.items group
        ≡ Some (counted_for reached.now.sets.rows.items (length above.now) portions.now (is_above above.now group))) }
{
    let sums = sums_by_set(alloc, reached.count(), portions)?;
    let none = Tally {
        counters: Counters { rfer: 0, excl: 0 },
        seen: 0,
        hits: 0,
    };
    let mut tallies = vec![in alloc; none; groups]?;
    for (set, bytes) in sums.iter().enumerate() {
        let members = reached.members(alloc, SetId::new(set), above.len())?;
        let named = named_by(alloc, above, members.as_slice())?;
        hit_all(
            tallies.as_mut_slice(),
            named.as_slice(),
            set,
            members.len(),
            *bytes,
        );
    }
    let told = tallies.as_slice();
    Ok(counters_in(alloc, told)?)
}

/// The indices of the groups that some subvolumes are members of, one subvolume after the other.
fn named_by(
    alloc: Global,
    above: &[Sequence<usize>],
    members: &[usize],
) -> Result<Sequence<usize>, AllocError>
    requires { All (λ member. member < length above.now) members.now }
    ensures { IfOk result (λ named. named ≡ flat_map (list_at above.now) members.now) }
{
    let mut named = Sequence::new(alloc);
    for member in members {
        let end = named.len();
        named.insert_slice(end, above[*member].as_slice())?;
    }
    Ok(named)
}

/// Counts the bytes of a set of so many members for the groups that are named, each time once: what is reached when a
/// group is named first, and what nobody else reaches when it has been named as often as there are members.
fn hit_all(tallies: &mut [Tally], named: &[usize], set: usize, many: usize, bytes: u64)
    requires inside { All (λ group. group < length tallies.old) named.now }
    requires unseen { All (IsUnseen set) tallies.old }
    requires room { All (λ tally. HasRoom bytes tally.counters) tallies.old }
    requires next { set + 1 < 2 ^ 64 }
    ensures { HaveHits named.now set many bytes tallies.old tallies.new }
{
    for group in named {
        tallies[*group] = hit(tallies[*group], set, many, bytes);
    }
}

/// A tally that a member of a set hits once more.
fn hit(tally: Tally, set: usize, many: usize, bytes: u64) -> Tally
    requires room { HasRoomFor set many bytes tally }
    requires next { set + 1 < 2 ^ 64 }
    requires few { hits_by set tally + 1 < 2 ^ 64 }
    ensures { result ≡ hit_once set many bytes tally }
{
    let hits = next_hit(tally, set);
    Tally {
        counters: Counters {
            rfer: added_if(tally.counters.rfer, bytes, hits == 1),
            excl: added_if(tally.counters.excl, bytes, hits == many),
        },
        seen: set + 1,
        hits,
    }
}

/// How often a set has hit a tally with one hit more.
fn next_hit(tally: Tally, set: usize) -> usize
    requires next { set + 1 < 2 ^ 64 }
    requires few { hits_by set tally + 1 < 2 ^ 64 }
    ensures { result ≡ hits_by set tally + 1 }
{
    if tally.seen == set + 1 {
        tally.hits + 1
    } else {
        1
    }
}

/// A sum with so many bytes more, where these are counted.
fn added_if(sum: u64, bytes: u64, counted: bool) -> u64
    requires { counted ≡ true → sum + bytes < 2 ^ 64 }
    ensures { result ≡ sum + given counted bytes }
{
    if counted { sum + bytes } else { sum }
}

/// What some tallies count.
fn counters_in(alloc: Global, tallies: &[Tally]) -> Result<Vec<Counters>, AllocError>
    ensures { IfOk result (λ counters. counters.items ≡ map (λ tally. tally.counters) tallies.now) }
{
    let mut counters = Vec::with_capacity(alloc, tallies.len())?;
    for tally in tallies {
        counters.push(tally.counters)?;
    }
    Ok(counters)
}
