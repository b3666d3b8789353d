// Node slots, by what holds them.
ghost use Rattle.std.specs.Prelude.{◌≡◌, ◌<◌, ◌≤◌, true, false, map, length, take, replicate, IfOk, MatchOption};
ghost use Rattle.std.specs.Prelude.{IsTrue};
ghost use Rattle.std.specs.List.{AllWithin, HoldsAt, count_by};
ghost use Rattle.qg_super.specs.Places.{is_served, is_slot, slot_at};
ghost use Rattle.qg_space.specs.Lying.{slots_where, is_unused, committed_slot};

use qg_num::{Address, Sequence};
use qg_super::{SLOTS_BEGIN, Sizes};
use std::alloc::{AllocError, Global};

/// A node slot, by what holds it.
#[derive(Clone, Copy)]
pub(crate) struct Slot {
    /// Whether the present state holds it.
    pub present: bool,
    /// Whether the last commit holds it.
    pub held: bool,
}

impl Slot {
    /// A slot that nothing holds.
    pub(crate) const UNUSED: Slot = Slot {
        present: false,
        held: false,
    };
}

/// So many slots that nothing holds.
pub(crate) fn unused_slots(alloc: Global, slots: u64) -> Result<Vec<Slot>, AllocError>
    ensures { IfOk result (λ made. made.items ≡ replicate slots (record { present = false; held = false })) }
{
    vec![in alloc; Slot::UNUSED; slots as usize]
}

/// The number of the slot at an address.
pub(crate) fn number_of(sizes: &Sizes, at: Address) -> usize
    requires served { IsTrue (is_served sizes.now) }
    requires slot { IsTrue (is_slot sizes.now at) }
    ensures bound { result < sizes.now.slots }
    ensures at { slot_at sizes.now result ≡ at }
{
    ((at.value() - SLOTS_BEGIN) / sizes.nodesize) as usize
}

/// The address of a slot.
pub(crate) fn address_of(sizes: &Sizes, number: usize) -> Address
    requires served { IsTrue (is_served sizes.now) }
    requires bound { number < sizes.now.slots }
    ensures { result ≡ slot_at sizes.now number }
{
    Address::new(SLOTS_BEGIN + number as u64 * sizes.nodesize)
}

/// The number of the first slot that nothing holds, from one on.
pub(crate) fn first_unused(slots: &[Slot], from: usize) -> Option<usize>
    requires { AllWithin (λ slot. is_unused slot ≡ false) slots.now 0 from }
    ensures { MatchOption result (AllWithin (λ slot. is_unused slot ≡ false) slots.now 0 (length slots.now)) (λ number.
        (number < length slots.now) × HoldsAt (λ slot. is_unused slot ≡ true) slots.now number
        × AllWithin (λ slot. is_unused slot ≡ false) slots.now 0 number) }
{
    for number in from..slots.len() {
        if is_unused(&slots[number]) {
            return Some(number);
        }
    }
    None
}

/// The addresses of the first so many slots that nothing holds, ascending. There is none before a number.
pub(crate) fn first_unused_slots(
    alloc: Global,
    sizes: &Sizes,
    slots: &[Slot],
    from: usize,
    count: u64,
) -> Result<Sequence<Address>, AllocError>
    requires served { IsTrue (is_served sizes.now) }
    requires all { length slots.now ≡ sizes.now.slots }
    requires used { AllWithin (λ slot. is_unused slot ≡ false) slots.now 0 from }
    ensures { IfOk result (λ list. list ≡ take count (slots_where is_unused sizes.now 0 slots.now)) }
{
    let mut list = Sequence::new(alloc);
    for number in from..slots.len() {
        if list.len() as u64 == count {
            return Ok(list);
        }
        if is_unused(&slots[number]) {
            list.push(address_of(sizes, number))?;
        }
    }
    Ok(list)
}

/// Whether neither the present state nor the last commit holds a slot.
fn is_unused(slot: &Slot) -> bool
    ensures { result ≡ is_unused slot.now }
{
    !(slot.present || slot.held)
}

/// How many slots nothing holds.
pub(crate) fn count_unused(slots: &[Slot]) -> usize
    ensures { result ≡ count_by is_unused slots.now }
{
    slots.iter().filter(|slot| is_unused(slot)).count()
}

/// How many slots the present state holds.
pub(crate) fn count_present(slots: &[Slot]) -> usize
    ensures { result ≡ count_by (λ slot. slot.present) slots.now }
{
    slots.iter().filter(|slot| slot.present).count()
}

/// The last commit holds a slot where the present state does.
fn committed_slot(slot: &Slot) -> Slot
    ensures { result ≡ committed_slot slot.now }
{
    Slot {
        present: slot.present,
        held: slot.present,
    }
}

/// Has the last commit hold what the present state does, and nothing else.
pub(crate) fn commit_slots(slots: &mut [Slot])
    ensures { slots.new ≡ map committed_slot slots.old }
{
    for slot in slots.iter_mut() {
        *slot = committed_slot(slot);
    }
}
