// KnownSlots that contracts alone see.
ghost use Rattle.std.specs.Prelude.{◌≡◌, List, ℕ};
ghost use Rattle.std.specs.Borrow.{ftrue};
ghost use Rattle.qg_blocks.specs.Table.{with_number};
ghost use Rattle.qg_space.specs.Holding.{without_slot};

use qg_num::Address;
use qg_space::Space;
use std::marker::Model;

/// KnownSlots that contracts alone see. It takes no memory, and its calls do nothing at run time (this project's own).
#[derive(Drop)]
pub struct KnownSlots {
    pub ghost items: { List ℕ },
}

impl Model for KnownSlots {
    ghost also_owns = { λ _. ftrue };
}

impl KnownSlots {
    /// Those that a present state has.
    pub(crate) fn of(space: &Space) -> KnownSlots
        ensures { result.items ≡ space.now.slots }
    {
        KnownSlots {}
    }

    /// The same with one more.
    pub(crate) fn with_slot(&self, at: &Address) -> KnownSlots
        ensures { result.items ≡ with_number at.now self.now.items }
    {
        KnownSlots {}
    }

    /// The same without one.
    pub(crate) fn without_slot(&self, at: &Address) -> KnownSlots
        ensures { result.items ≡ without_slot at.now self.now.items }
    {
        KnownSlots {}
    }
}
