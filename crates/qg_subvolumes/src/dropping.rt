// A subvolume's tree, dropped whole.
ghost use Rattle.std.specs.Prelude.{◌≡◌, ◌+◌, ◌*◌, ◌≤◌, ◌∷◌, [], ℕ, Bool, List, Some, All, OnOk, IsTrue, map};
ghost use Rattle.qg_device.specs.Cause.{HasCause};
ghost use Rattle.qg_device.specs.History.{Event, Recorded};
ghost use Rattle.qg_super.specs.Places.{capacity};
ghost use Rattle.qg_image.specs.State.{State as MachineState, has_subvolume, next_generation};
ghost use Rattle.qg_machine.specs.Refusals.{nodes_reached};
ghost use Rattle.qg_machine.specs.Step.{deleted};
ghost use Rattle.qg_blocks.specs.Stopping.{StopsForCause};
ghost use Rattle.qg_blocks.specs.NodesFound.{BreaksNone};
ghost use Rattle.qg_tree_edits.specs.Editing.{IsEditable};
ghost use Rattle.qg_tree_backrefs.specs.Heavier.{BookGetsHeavier};
ghost use Rattle.qg_shared_trees.specs.ForestStanding.{HoldsState, tree_of};
ghost use Rattle.qg_subvolumes.specs.Dropping.{AreParts, HoldsPartly, IsPart, RestsButRuns, StaysBook, parts_reached};
ghost use Rattle.qg_subvolumes.specs.Dropping.{without_part, without_parts};

use crate::child::{Child, children_of};
use crate::extents::misfit_at;
use crate::parting::part_with;
use qg_disk::Disk;
use qg_image::FilePart;
use qg_items::Reference;
use qg_node_alloc::Ground;
use qg_num::{BlockFault, Steps};
use qg_tree_backrefs::TreeRefs;
use qg_tree_read::Tree;
use std::alloc::Global;
use std::sync::ledger::Ledger;

/// A subvolume's tree goes (btrfs-subvolume(8), "delete"): every node that it reached is visited once. What nothing
/// refers to any more goes, with what it owed. The subvolume's own nodes that live on become full, also below nodes
/// that others reach.
///
/// `book` is that of the subvolume. `Image` comes where a node is not what leads to it expects, and with `refs` where a
/// reference or a run is not what it should be. After an `Err` nothing of it is of use.
pub fn drop_all<D: Disk, L: Ledger>(
    alloc: Global,
    land: &mut Ground,
    disk: &mut D,
    tree: &Tree,
    book: &mut TreeRefs,
    reads: &mut Steps<L>,
) -> Result<(), BlockFault>
    requires editable { IsEditable land.old (D.history disk.old) (D.size disk.old) tree.now.next }
    requires book { book.old.tree ≡ tree.now.owner }

    // Where they hold a state.
    ensures dropped { (state : MachineState) → HoldsState land.old (D.history disk.old) book.old state
        → IsTrue (has_subvolume state tree.now.owner) → tree.now ≡ tree_of state tree.now.owner
        → OnOk result (HoldsState land.new (D.history disk.new) book.new (deleted state tree.now.owner)) }
    ensures sound { (state : MachineState) (events : List Event) → D.history disk.old ≡ Recorded events
        → HoldsState land.old (D.history disk.old) book.old state
        → IsTrue (has_subvolume state tree.now.owner) → tree.now ≡ tree_of state tree.now.owner → BreaksNone result }
    ensures reads { (state : MachineState) (events : List Event) → D.history disk.old ≡ Recorded events
        → HoldsState land.old (D.history disk.old) book.old state
        → IsTrue (has_subvolume state tree.now.owner) → tree.now ≡ tree_of state tree.now.owner
        → reads.new ≤ reads.old + nodes_reached state tree.now.owner }
    ensures heavier { (state : MachineState) → HoldsState land.old (D.history disk.old) book.old state
        → IsTrue (has_subvolume state tree.now.owner) → tree.now ≡ tree_of state tree.now.owner
        → OnOk result (BookGetsHeavier book.old book.new (nodes_reached state tree.now.owner * capacity
        land.old.space.sizes.nodesize)) }

    // Over any disk.
    ensures book { StaysBook book.old book.new result }
    ensures rests { RestsButRuns land.old land.new (D.history disk.new) tree.now.next }
    ensures disk { (D.history disk.new ≡ D.history disk.old) × (D.size disk.new ≡ D.size disk.old) }
    ensures stops { StopsForCause result land.old.blocks.draft.sizes (D.size disk.old) }
    ensures cause { HasCause BlockFault.Disk (D.faults disk.old) (D.faults disk.new) result }
{
    let _ascending = book.refs().len();
    let root = Child {
        way: tree.way(),
        full: book.refs().is_marked(tree.root()),
    };
    let own = Reference::KeyedBlock { root: tree.owner() };
    if !book.unname(tree.root(), &own) {
        return Err(misfit_at(tree.root()));
    }
    let _ascending_still = book.refs().len();
    drop_under::<D, L>(tree, alloc, land, disk, book, &root, tree.height(), reads)?;
    let _ascending_left = book.refs().len();
    Ok(())
}

// Drops the node of a level, and all below it.
#[cycle(dropping)]
fn drop_under<D: Disk, L: Ledger>(
    tree: &Tree,
    alloc: Global,
    land: &mut Ground,
    disk: &mut D,
    book: &mut TreeRefs,
    part: &Child,
    level: u8,
    reads: &mut Steps<L>,
) -> Result<(), BlockFault>
    requires editable { IsEditable land.old (D.history disk.old) (D.size disk.old) tree.now.next }
    requires levelled { part.now.way.expected.level ≡ Some level }
    ensures dropped { (state : MachineState) (waiting : ℕ → Bool)
        → HoldsPartly land.old (D.history disk.old) book.old state tree.now.owner waiting
        → IsPart state waiting level part.now
        → OnOk result (HoldsPartly land.new (D.history disk.new) book.new state tree.now.owner
        (without_part state level part.now.way.address waiting)) }
    ensures sound { (state : MachineState) (waiting : ℕ → Bool) (events : List Event)
        → D.history disk.old ≡ Recorded events
        → tree.now.next ≡ next_generation state
        → HoldsPartly land.old (D.history disk.old) book.old state tree.now.owner waiting
        → IsPart state waiting level part.now → BreaksNone result }
    ensures reads { (state : MachineState) (waiting : ℕ → Bool) (events : List Event)
        → D.history disk.old ≡ Recorded events
        → HoldsPartly land.old (D.history disk.old) book.old state tree.now.owner waiting
        → IsPart state waiting level part.now
        → reads.new ≤ reads.old + parts_reached state level (part.now ∷ []) }
    ensures heavier { (state : MachineState) (waiting : ℕ → Bool)
        → HoldsPartly land.old (D.history disk.old) book.old state tree.now.owner waiting
        → IsPart state waiting level part.now
        → OnOk result (BookGetsHeavier book.old book.new
        (parts_reached state level (part.now ∷ []) * capacity land.old.space.sizes.nodesize)) }
    ensures book { StaysBook book.old book.new result }
    ensures rests { RestsButRuns land.old land.new (D.history disk.new) tree.now.next }
    ensures disk { (D.history disk.new ≡ D.history disk.old) × (D.size disk.new ≡ D.size disk.old) }
    ensures stops { StopsForCause result land.old.blocks.draft.sizes (D.size disk.old) }
    ensures cause { HasCause BlockFault.Disk (D.faults disk.old) (D.faults disk.new) result }
{
    tree.visit::<FilePart, D, L>(&mut land.blocks, disk, &part.way, reads)?;
    let at = part.way.address;
    let node = land.blocks.peek(at);
    let children = children_of(
        alloc,
        book,
        node,
        part.way.expected.to,
        level.saturating_sub(1),
    )?;
    part_with(alloc, land, book, at, part.full)?;
    if level == 0 {
        return Ok(());
    }
    drop_each::<D, L>(
        tree,
        alloc,
        land,
        disk,
        book,
        children.as_slice(),
        level - 1,
        reads,
    )
}

// Drops nodes of a level, one after the other, and all below them.
#[cycle(dropping)]
fn drop_each<D: Disk, L: Ledger>(
    tree: &Tree,
    alloc: Global,
    land: &mut Ground,
    disk: &mut D,
    book: &mut TreeRefs,
    parts: &[Child],
    level: u8,
    reads: &mut Steps<L>,
) -> Result<(), BlockFault>
    requires editable { IsEditable land.old (D.history disk.old) (D.size disk.old) tree.now.next }
    requires levelled { All (λ part. part.way.expected.level ≡ Some level) parts.now }
    ensures dropped { (state : MachineState) (waiting : ℕ → Bool)
        → HoldsPartly land.old (D.history disk.old) book.old state tree.now.owner waiting
        → AreParts state waiting level parts.now
        → OnOk result (HoldsPartly land.new (D.history disk.new) book.new state tree.now.owner
        (without_parts state level (map (λ part. part.way.address) parts.now) waiting)) }
    ensures sound { (state : MachineState) (waiting : ℕ → Bool) (events : List Event)
        → D.history disk.old ≡ Recorded events
        → tree.now.next ≡ next_generation state
        → HoldsPartly land.old (D.history disk.old) book.old state tree.now.owner waiting
        → AreParts state waiting level parts.now → BreaksNone result }
    ensures reads { (state : MachineState) (waiting : ℕ → Bool) (events : List Event)
        → D.history disk.old ≡ Recorded events
        → HoldsPartly land.old (D.history disk.old) book.old state tree.now.owner waiting
        → AreParts state waiting level parts.now
        → reads.new ≤ reads.old + parts_reached state level parts.now }
    ensures heavier { (state : MachineState) (waiting : ℕ → Bool)
        → HoldsPartly land.old (D.history disk.old) book.old state tree.now.owner waiting
        → AreParts state waiting level parts.now
        → OnOk result (BookGetsHeavier book.old book.new
        (parts_reached state level parts.now * capacity land.old.space.sizes.nodesize)) }
    ensures book { StaysBook book.old book.new result }
    ensures rests { RestsButRuns land.old land.new (D.history disk.new) tree.now.next }
    ensures disk { (D.history disk.new ≡ D.history disk.old) × (D.size disk.new ≡ D.size disk.old) }
    ensures stops { StopsForCause result land.old.blocks.draft.sizes (D.size disk.old) }
    ensures cause { HasCause BlockFault.Disk (D.faults disk.old) (D.faults disk.new) result }
{
    let mut rest = parts;
    'parts: while let Some((part, others)) = rest.split_first() {
        drop_under::<D, L>(tree, alloc, land, disk, book, part, level, reads)?;
        rest = others;
    }
    Ok(())
}
