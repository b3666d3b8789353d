// Slots are taken and given back, many at once.
ghost use Rattle.std.specs.Prelude.{◌⊎◌, ℕ, IsOk, IsTrue};
ghost use Rattle.std.specs.List.{Contains, list_all};
ghost use Rattle.qg_super.specs.Places.{is_slot};
ghost use Rattle.qg_space.specs.ManySlots.{ChangesSlots};

use crate::Space;
use qg_num::{Address, NoMemory};

/// The present state takes those of some slots, by their addresses in bytes, that it doesn't have. The last commit
/// holds none of them.
pub fn take_slots(space: &mut Space, slots: &[Address]) -> Result<(), NoMemory>
    requires slots { IsTrue (list_all (is_slot space.old.sizes) slots.now) }
    requires unheld { (slot : ℕ) → Contains slots.now slot → Contains space.old.held_slots slot → ⊥ }
    ensures sure { IsOk result }
    ensures taken { ChangesSlots space.old space.new (λ slot. Contains space.old.slots slot ⊎ Contains slots.now slot) }
{
    for slot in slots {
        if !space.has_slot(*slot) {
            space.take_slot_at(*slot)?;
        }
    }
    Ok(())
}

/// The present state gives back those of some slots, by their addresses in bytes, that it has.
pub fn give_slots(space: &mut Space, slots: &[Address])
    ensures { ChangesSlots space.old space.new (λ slot. Contains space.old.slots slot × (Contains slots.now slot → ⊥)) }
{
    for slot in slots {
        if space.has_slot(*slot) {
            space.give_slot(*slot);
        }
    }
}
