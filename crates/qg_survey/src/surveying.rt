// The nodes that subvolumes reach.
ghost use Rattle.std.specs.Prelude.{◌≡◌, ◌+◌, ◌≤◌, List, Some, None, All, IfOk, OnErr, OnOk, length, map};
ghost use Rattle.std.specs.BTreeMap.{Updates};
ghost use Rattle.std.specs.Ordering.{nat_cmp};
ghost use Rattle.qg_device.specs.Cause.{HasCause};
ghost use Rattle.qg_device.specs.History.{Event, Recorded};
ghost use Rattle.qg_image.specs.State.{State as MachineState, next_generation};
ghost use Rattle.qg_blocks.specs.Stopping.{StopsForCause};
ghost use Rattle.qg_blocks.specs.NodesFound.{BreaksNone};
ghost use Rattle.qg_extents.specs.Table.{book_of};
ghost use Rattle.qg_qgroup_counts.specs.Surveyed.{surveyed_of};
ghost use Rattle.qg_tree_read.specs.Way.{HasRead, IsReadable};
ghost use Rattle.qg_tree_edits.specs.Editing.{IsEditable};
ghost use Rattle.qg_subvolumes.specs.ForestStanding.{HoldsState};
ghost use Rattle.qg_subvolumes.specs.Counting.{LeadsToBranch, TellsNodes};
ghost use Rattle.qg_survey.specs.Surveying.{
  AreRead,
  EndBelow,
  EndTrees,
  EndsBelow,
  GoesOn,
  LeadsOn,
  MarksNodes,
  link_at,
  trees_of,
};

use qg_blocks::Blocks;
use qg_disk::Disk;
use qg_extents::Extents;
use qg_image::FilePart;
use qg_node_alloc::Ground;
use qg_num::{Address, BlockFault, NoMemory, Steps};
use qg_qgroup_counts::{Surveyed, surveyed_of};
use qg_subvolumes::ways_of;
use qg_tree_backrefs::TreeRefs;
use qg_tree_read::{Tree, Way};
use std::alloc::{AllocError, Global};
use std::collections::BTreeMap;
use std::sync::ledger::Ledger;

/// Each node that subvolumes reach, ascending by address: what the rule `home` needs of it, and the extents that it
/// names. Each node is read once, however many subvolumes reach it.
///
/// `trees` are those of all subvolumes. `Image` comes where a node is not what leads to it expects.
pub fn survey<D: Disk, L: Ledger>(
    alloc: Global,
    land: &mut Ground,
    disk: &mut D,
    trees: &[Tree],
    book: &TreeRefs,
    reads: &mut Steps<L>,
) -> Result<Vec<Surveyed>, BlockFault>
    requires editable { IsEditable land.old (D.history disk.old) (D.size disk.old) book.now.next }

    // Where they hold a state.
    ensures surveyed { (state : MachineState) → HoldsState land.old (D.history disk.old) book.now state
        → trees.now ≡ trees_of state
        → IfOk result (λ links. links.items ≡ map (λ entry. surveyed_of entry.0 entry.1) state.layout) }
    ensures sound { (state : MachineState) (events : List Event) → D.history disk.old ≡ Recorded events
        → HoldsState land.old (D.history disk.old) book.now state → trees.now ≡ trees_of state → BreaksNone result }
    ensures reads { (state : MachineState) → HoldsState land.old (D.history disk.old) book.now state
        → trees.now ≡ trees_of state → reads.new ≤ reads.old + length state.layout + 8 }

    // Over any disk.
    ensures editable { IsEditable land.new (D.history disk.new) (D.size disk.new) book.now.next }
    ensures read { HasRead land.old.blocks land.new.blocks (D.history disk.old) (D.history disk.new)
        (D.size disk.old) (D.size disk.new) }
    ensures space { land.new.space ≡ land.old.space }
    ensures stops { StopsForCause result land.old.blocks.draft.sizes (D.size disk.old) }
    ensures cause { HasCause BlockFault.Disk (D.faults disk.old) (D.faults disk.new) result }
{
    let mut links = BTreeMap::new(alloc);
    let surveyed = survey_trees::<D, L>(
        alloc,
        &mut land.blocks,
        disk,
        trees,
        book.refs(),
        &mut links,
        reads,
    );
    // A proof knows that keys ascend once they were counted.
    let _count = links.len();
    surveyed?;
    Ok(list_of(alloc, links)?)
}

// Reads the nodes of trees.
fn survey_trees<D: Disk, L: Ledger>(
    alloc: Global,
    blocks: &mut Blocks,
    disk: &mut D,
    trees: &[Tree],
    book: &Extents,
    links: &mut BTreeMap<u64, Surveyed>,
    reads: &mut Steps<L>,
) -> Result<(), BlockFault>
    requires readable { IsReadable blocks.old (D.history disk.old) (D.size disk.old) }
    ensures surveyed { (state : MachineState) → TellsNodes blocks.old.draft (D.history disk.old) state
        → MarksNodes (book_of book.now) state → All (LeadsOn state) trees.now → AreRead state links.old.entries
        → GoesOn state 7 links.old.entries links.new.entries reads.old reads.new
        × OnOk result (EndTrees state trees.now links.old.entries links.new.entries reads.old reads.new) }
    ensures sound { (state : MachineState) → All (λ tree. tree.next ≡ next_generation state) trees.now
        → TellsNodes blocks.old.draft (D.history disk.old) state → All (LeadsOn state) trees.now → BreaksNone result }
    ensures readable { IsReadable blocks.new (D.history disk.new) (D.size disk.new) }
    ensures read { HasRead blocks.old blocks.new (D.history disk.old) (D.history disk.new)
        (D.size disk.old) (D.size disk.new) }
    ensures stops { StopsForCause result blocks.old.draft.sizes (D.size disk.old) }
    ensures cause { HasCause BlockFault.Disk (D.faults disk.old) (D.faults disk.new) result }
{
    let mut rest = trees;
    'trees: while let Some((tree, others)) = rest.split_first() {
        survey_under::<D, L>(
            tree,
            alloc,
            blocks,
            disk,
            &tree.way(),
            tree.height(),
            book,
            links,
            reads,
        )?;
        rest = others;
    }
    Ok(())
}

// What was read, by address.
fn list_of(alloc: Global, links: BTreeMap<u64, Surveyed>) -> Result<Vec<Surveyed>, AllocError>
    ensures { IfOk result (λ list. list.items ≡ map (λ entry. entry.1) links.entries) }
{
    links.into_values().collect(alloc)
}

// Reads the nodes below the node of a level, itself included, but for those that were read before.
#[cycle(surveying)]
fn survey_under<D: Disk, L: Ledger>(
    tree: &Tree,
    alloc: Global,
    blocks: &mut Blocks,
    disk: &mut D,
    way: &Way,
    level: u8,
    book: &Extents,
    links: &mut BTreeMap<u64, Surveyed>,
    reads: &mut Steps<L>,
) -> Result<(), BlockFault>
    requires readable { IsReadable blocks.old (D.history disk.old) (D.size disk.old) }
    requires levelled { way.now.expected.level ≡ Some level }
    ensures surveyed { (state : MachineState) → TellsNodes blocks.old.draft (D.history disk.old) state
        → MarksNodes (book_of book.now) state → LeadsToBranch state level way.now → AreRead state links.old.entries
        → GoesOn state level links.old.entries links.new.entries reads.old reads.new
        × OnOk result (EndsBelow state level way.now.address links.old.entries links.new.entries reads.old reads.new) }
    ensures sound { (state : MachineState) → tree.now.next ≡ next_generation state
        → TellsNodes blocks.old.draft (D.history disk.old) state → LeadsToBranch state level way.now
        → BreaksNone result }
    ensures readable { IsReadable blocks.new (D.history disk.new) (D.size disk.new) }
    ensures read { HasRead blocks.old blocks.new (D.history disk.old) (D.history disk.new)
        (D.size disk.old) (D.size disk.new) }
    ensures stops { StopsForCause result blocks.old.draft.sizes (D.size disk.old) }
    ensures cause { HasCause BlockFault.Disk (D.faults disk.old) (D.faults disk.new) result }
{
    if links.contains_key(&way.address.value()) {
        return Ok(());
    }
    tree.visit::<FilePart, D, L>(blocks, disk, way, reads)?;
    let node = blocks.peek(way.address);
    let link = surveyed_of(alloc, node, book.is_marked(way.address))?;
    let ways = ways_of(alloc, node, way.expected.to, level.saturating_sub(1))?;
    if level > 0 {
        survey_each::<D, L>(
            tree,
            alloc,
            blocks,
            disk,
            ways.as_slice(),
            level - 1,
            book,
            links,
            reads,
        )?;
    }
    put_link(links, way.address, link)?;
    Ok(())
}

// Reads the nodes below those of a level that ways lead to.
#[cycle(surveying)]
fn survey_each<D: Disk, L: Ledger>(
    tree: &Tree,
    alloc: Global,
    blocks: &mut Blocks,
    disk: &mut D,
    ways: &[Way],
    level: u8,
    book: &Extents,
    links: &mut BTreeMap<u64, Surveyed>,
    reads: &mut Steps<L>,
) -> Result<(), BlockFault>
    requires readable { IsReadable blocks.old (D.history disk.old) (D.size disk.old) }
    requires levelled { All (λ way. way.expected.level ≡ Some level) ways.now }
    ensures surveyed { (state : MachineState) → TellsNodes blocks.old.draft (D.history disk.old) state
        → MarksNodes (book_of book.now) state → All (LeadsToBranch state level) ways.now
        → AreRead state links.old.entries
        → GoesOn state level links.old.entries links.new.entries reads.old reads.new
        × OnOk result (EndBelow state level ways.now links.old.entries links.new.entries reads.old reads.new) }
    ensures sound { (state : MachineState) → tree.now.next ≡ next_generation state
        → TellsNodes blocks.old.draft (D.history disk.old) state → All (LeadsToBranch state level) ways.now
        → BreaksNone result }
    ensures readable { IsReadable blocks.new (D.history disk.new) (D.size disk.new) }
    ensures read { HasRead blocks.old blocks.new (D.history disk.old) (D.history disk.new)
        (D.size disk.old) (D.size disk.new) }
    ensures stops { StopsForCause result blocks.old.draft.sizes (D.size disk.old) }
    ensures cause { HasCause BlockFault.Disk (D.faults disk.old) (D.faults disk.new) result }
{
    let mut rest = ways;
    'ways: while let Some((way, others)) = rest.split_first() {
        survey_under::<D, L>(tree, alloc, blocks, disk, way, level, book, links, reads)?;
        rest = others;
    }
    Ok(())
}

// Puts what was read of a node under its address.
fn put_link(
    links: &mut BTreeMap<u64, Surveyed>,
    at: Address,
    link: Surveyed,
) -> Result<(), NoMemory>
    ensures put { OnOk result (Updates nat_cmp links.old links.new at (Some link)) }
    ensures grown { OnOk result (link_at links.old.entries at ≡ None
        → length links.new.entries ≡ length links.old.entries + 1) }
    ensures refused { OnErr result (links.new.entries ≡ links.old.entries) }
{
    links.insert(at.value(), link)?;
    Ok(())
}
