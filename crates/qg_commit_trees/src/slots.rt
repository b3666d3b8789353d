// Slots that the last commit holds besides those of the present state.
ghost use Rattle.std.specs.Prelude.{IsTrue};
ghost use Rattle.std.specs.List.{list_all};
ghost use Rattle.qg_space.specs.Holding.{is_free_slot};
ghost use Rattle.qg_commit_trees.specs.Slots.{HoldsBesides};

use qg_num::Address;
use qg_space::{Space, give_slots, take_slots};

/// A commit was done: it holds what the present state has, and some slots besides, which were free.
pub(crate) fn hold_besides(space: &mut Space, others: &[Address])
    requires free { IsTrue (list_all (is_free_slot space.old) others.now) }
    ensures { HoldsBesides space.old space.new others.now }
{
    let Ok(()) = take_slots(space, others) else {
        unreachable!()
    };
    space.committed();
    give_slots(space, others);
}
