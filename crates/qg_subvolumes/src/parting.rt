// One node that a subvolume reaches no more.
ghost use Rattle.std.specs.Prelude.{◌≡◌, ◌≤◌, ◌&&◌, ◌==◌, ℕ, Bool, List, IfErr, IsSome, IsTrue, OnOk, not};
ghost use Rattle.qg_device.specs.History.{History};
ghost use Rattle.qg_num.specs.declared.rule.Rule.TheVariants.{Refs};
ghost use Rattle.qg_image.specs.Table.{value_at};
ghost use Rattle.qg_image.specs.State.{Placed as PlacedValue, State as MachineState};
ghost use Rattle.qg_super.specs.Places.{capacity};
ghost use Rattle.qg_blocks.specs.Stopping.{NamesRule};
ghost use Rattle.qg_blocks.specs.NodesFound.{BreaksNone, IsBacked, held_at};
ghost use Rattle.qg_space.specs.Holding.{free_slots};
ghost use Rattle.qg_node_alloc.specs.Land.{IsDrafted};
ghost use Rattle.qg_tree_backrefs.specs.Heavier.{BookGetsHeavier};
ghost use Rattle.qg_subvolumes.specs.Dropping.{HoldsPartly, IsUnder, RestsButRuns, StaysBook};

use crate::extents::{extents_known, misfit_at, without_references};
use qg_cow_refs::Leaving;
use qg_node_alloc::Ground;
use qg_num::{Address, BlockFault};
use qg_tree_backrefs::{TreeRefs, let_go};
use std::alloc::Global;

/// The subvolume reaches the node at an address no more, which is in memory. It goes where no reference is left, with
/// what it owed; its slot is given back then, and so are runs that nothing names any more. The subvolume's own node
/// that lives on becomes full.
///
/// `Image` comes with `refs` where a reference, or a run, is not what it should be.
pub(crate) fn part_with(
    alloc: Global,
    land: &mut Ground,
    book: &mut TreeRefs,
    at: Address,
    full: bool,
) -> Result<(), BlockFault>
    requires held { IsSome (held_at land.old.blocks at) }
    ensures parted { (state : MachineState) (sub : ℕ) (waiting : ℕ → Bool) (history : History)
        (placed : PlacedValue)
        → IsBacked land.old.blocks history → HoldsPartly land.old history book.old state sub waiting
        → value_at at state.layout ≡ Some placed → placed.full ≡ full → IsTrue (waiting at) → IsUnder state waiting at
        → OnOk result (HoldsPartly land.new history book.new state sub (λ q. waiting q && not (q == at))) }
    ensures sound { (state : MachineState) (sub : ℕ) (waiting : ℕ → Bool) (history : History)
        (placed : PlacedValue)
        (generation : ℕ) → IsBacked land.old.blocks history → IsDrafted land.old generation
        → HoldsPartly land.old history book.old state sub waiting → value_at at state.layout ≡ Some placed
        → placed.full ≡ full → IsTrue (waiting at) → IsUnder state waiting at → BreaksNone result }
    ensures slots { free_slots land.old.space ≤ free_slots land.new.space }
    ensures book { StaysBook book.old book.new result }
    ensures heavier { (history : History) (generation : ℕ) → IsBacked land.old.blocks history
        → IsDrafted land.old generation
        → OnOk result (BookGetsHeavier book.old book.new (capacity land.old.space.sizes.nodesize)) }
    ensures rests { (history : History) (generation : ℕ) → IsBacked land.old.blocks history
        → IsDrafted land.old generation → RestsButRuns land.old land.new history generation }
    ensures no_disk { IfErr result (λ fault. fault ≡ BlockFault.Disk → ⊥) }
    ensures refs { NamesRule result Refs }
{
    let _ascending = book.refs().len();
    let named = extents_known(alloc, book.refs(), land.blocks.peek(at))?;
    let case = book.part_with(land.blocks.peek(at), full)?;
    if let Some(address) = book.misfit() {
        return Err(misfit_at(address));
    }
    if let Leaving::Goes = case {
        let gone = without_references(alloc, book.refs(), &land.space, named.as_slice())?;
        land.space.give_runs(gone.as_slice());
        let_go(book.refs(), land, at);
    }
    let _ascending_still = book.refs().len();
    Ok(())
}
