// Limits of quota groups, and what is held in them.
ghost use Rattle.std.specs.Prelude.{◌≡◌, ℕ, ◌^◌, ◌<◌, IsTrue, OnOk, OnErr};
ghost use Rattle.std.specs.List.{All};
ghost use Rattle.qg_image.specs.Table.{has_key};
ghost use Rattle.qg_image.specs.Limits.{limit_passed, passes_limit};
ghost use Rattle.qg_qgroups.specs.Limit.{bytes_after, bytes_at, first_over_of, held_of, limited_group, max_in};
ghost use Rattle.qg_qgroups.specs.Limit.{maxima_at, maxima_of, nothing_limited, with_max, HasMax, HoldsMore, IsSetAt};
ghost use Rattle.qg_qgroups.specs.Limit.{SameHeld, SameMaxima};

use qg_num::{Counters, GroupId, NoMemory, Which};
use std::alloc::Global;
use std::collections::BTreeMap;
use std::marker::Model;

/// The limits of a group, in bytes (btrfs-qgroup(8), "limits").
#[derive(Clone, Copy)]
pub(crate) struct Maxima {
    // On referenced bytes, and on exclusive bytes, if they are set.
    rfer: Option<u64>,
    excl: Option<u64>,
}

/// The limits that are set for quota groups, and the bytes that accepted reservations hold in them. A contract sees
/// both by the groups' numbers.
#[derive(Drop)]
pub struct Limits {
    maxima: BTreeMap<u64, Maxima>,
    held: BTreeMap<u64, u64>,
}

impl Model for Limits {
    ghost use Rattle.qg_qgroups.specs.Limit.{Limited};

    ghost Value = { Limited };

    ghost view = { λ l. record { maxima = l.maxima.entries; held = l.held.entries } };
}

impl Limits {
    /// No limit is set, and nothing is held. It takes no memory.
    pub fn new(alloc: Global) -> Limits
        ensures { result ≡ nothing_limited }
    {
        Limits {
            maxima: BTreeMap::new(alloc),
            held: BTreeMap::new(alloc),
        }
    }

    /// Sets a limit of a group, in bytes, or takes it away. Where memory is refused, nothing has changed.
    pub fn set(&mut self, group: GroupId, which: Which, max: Option<u64>) -> Result<(), NoMemory>
        ensures ok { OnOk result (HasMax self.old self.new group which max) }
        ensures held { SameHeld self.old self.new }
        ensures err { OnErr result (SameMaxima self.old self.new) }
    {
        let maxima = with_max(maxima_of(&self.maxima, group), which, max);
        put_maxima(&mut self.maxima, group, maxima)
    }

    /// The limit of a group that was last set, in bytes, and none where none is.
    pub fn max(&self, group: GroupId, which: Which) -> Option<u64>
        ensures { result ≡ max_in which (maxima_of self.now group) }
    {
        let maxima = maxima_of(&self.maxima, group);
        match which {
            Which::Rfer => maxima.rfer,
            Which::Excl => maxima.excl,
        }
    }

    /// How many bytes are held for a group.
    pub fn held(&self, group: GroupId) -> u64
        ensures { result ≡ held_of self.now group }
    {
        bytes_of(&self.held, group)
    }

    /// The first group of a path, with its counters, that is over its limit if so many bytes more were reserved into
    /// each, and over which: referenced bytes before exclusive ones. None where no limit is in the way. It takes no
    /// memory.
    pub fn over(&self, path: &[(GroupId, Counters)], n: u64) -> Option<(GroupId, Which)>
        ensures { result ≡ first_over_of self.now path.now n }
    {
        for entry in path {
            if let Some(which) = self.passed(entry, n) {
                return Some((entry.0, which));
            }
        }
        None
    }

    /// Holds so many bytes more for each group of a path. Where memory is refused, as much is held as before.
    pub fn hold(&mut self, path: &[GroupId], n: u64) -> Result<(), NoMemory>
        requires fits { All (λ group. bytes_after self.old.held path.now n group < 2 ^ 64) path.now }
        ensures ok { OnOk result (HoldsMore self.old self.new path.now n) }
        ensures maxima { SameMaxima self.old self.new }
        ensures err { OnErr result (SameHeld self.old self.new) }
    {
        make_room(&mut self.held, path)?;
        add_to_each(&mut self.held, path, n);
        Ok(())
    }

    /// Nothing is held any more. It takes no memory.
    pub fn release_all(&mut self)
        ensures none { (group : ℕ) → held_of self.new group ≡ 0 }
        ensures maxima { SameMaxima self.old self.new }
    {
        self.held.clear();
    }

    // The limit of a group that so many bytes more would pass.
    fn passed(&self, entry: &(GroupId, Counters), n: u64) -> Option<Which>
        ensures { result ≡ limit_passed (held_of self.now entry.now.0) n (limited_group self.now entry.now).1 }
    {
        let (group, counters) = *entry;
        let maxima = maxima_of(&self.maxima, group);
        let more = self.held(group) as u128 + n as u128;
        if is_past(maxima.rfer, counters.rfer as u128 + more) {
            return Some(Which::Rfer);
        }
        if is_past(maxima.excl, counters.excl as u128 + more) {
            return Some(Which::Excl);
        }
        None
    }
}

// What is set for a group.
fn maxima_of(maxima: &BTreeMap<u64, Maxima>, group: GroupId) -> Maxima
    ensures { result ≡ maxima_at maxima.now.entries group }
{
    match maxima.get(&group.number()) {
        Some(maxima) => *maxima,
        None => Maxima {
            rfer: None,
            excl: None,
        },
    }
}

// Sets both limits of a group. One without any has no entry.
fn put_maxima(
    maxima: &mut BTreeMap<u64, Maxima>,
    group: GroupId,
    both: Maxima,
) -> Result<(), NoMemory>
    ensures ok { OnOk result (IsSetAt maxima.old.entries maxima.new.entries group both) }
    ensures err { OnErr result (maxima.new.entries ≡ maxima.old.entries) }
{
    if both.rfer.is_none() && both.excl.is_none() {
        maxima.remove(&group.number());
        return Ok(());
    }
    maxima.insert(group.number(), both)?;
    Ok(())
}

// The same limits with another one.
fn with_max(maxima: Maxima, which: Which, max: Option<u64>) -> Maxima
    ensures { result ≡ with_max which max maxima }
{
    match which {
        Which::Rfer => Maxima {
            rfer: max,
            excl: maxima.excl,
        },
        Which::Excl => Maxima {
            rfer: maxima.rfer,
            excl: max,
        },
    }
}

// Whether a limit is set and a number of bytes is greater than it.
fn is_past(max: Option<u64>, bytes: u128) -> bool
    ensures { result ≡ passes_limit bytes max }
{
    match max {
        Some(max) => bytes > max as u128,
        None => false,
    }
}

// How many bytes are held for a group.
fn bytes_of(held: &BTreeMap<u64, u64>, group: GroupId) -> u64
    ensures { result ≡ bytes_at held.now.entries group }
{
    held.get(&group.number()).copied().unwrap_or(0)
}

// Each group of a path has an entry. What is held stays.
fn make_room(held: &mut BTreeMap<u64, u64>, path: &[GroupId]) -> Result<(), NoMemory>
    ensures same { (group : ℕ) → bytes_at held.new.entries group ≡ bytes_at held.old.entries group }
    ensures there { OnOk result (All (λ group. IsTrue (has_key group held.new.entries)) path.now) }
{
    for group in path {
        if !held.contains_key(&group.number()) {
            held.insert(group.number(), 0)?;
        }
    }
    Ok(())
}

// Adds so many bytes to the entry of each group of a path.
fn add_to_each(held: &mut BTreeMap<u64, u64>, path: &[GroupId], n: u64)
    requires there { All (λ group. IsTrue (has_key group held.old.entries)) path.now }
    requires fits { All (λ group. bytes_after held.old.entries path.now n group < 2 ^ 64) path.now }
    ensures { (group : ℕ) → bytes_at held.new.entries group ≡ bytes_after held.old.entries path.now n group }
{
    for group in path {
        let bytes = bytes_of(held, *group);
        match held.insert(group.number(), bytes + n) {
            Ok(_) => {}
            Err(_) => unreachable!(),
        }
    }
}
