// The references to what begins at an address.
ghost use Rattle.std.specs.Prelude.{◌≡◌, ◌+◌, ◌≤◌, true, List, length, IfOk, OnOk};
ghost use Rattle.qg_device.specs.Cause.{HasCause};
ghost use Rattle.qg_device.specs.History.{Event, Recorded};
ghost use Rattle.qg_items.specs.declared.extent.Reference.{Reference as Named};
ghost use Rattle.qg_node.specs.declared.item.Item.{Item as ItemValue};
ghost use Rattle.qg_blocks.specs.NodesFound.{BreaksNone};
ghost use Rattle.qg_tree_items.specs.Owed.{is_told_once};
ghost use Rattle.qg_tree_items.specs.Types.{Extents};
ghost use Rattle.qg_tree_read.specs.Stopping.{StopsOnWay};
ghost use Rattle.qg_tree_read.specs.Tree.{TellsTree};
ghost use Rattle.qg_tree_read.specs.Way.{FailsOnWay, HasRead, IsReadable};
ghost use Rattle.qg_refs.specs.Counts.{count_of};
ghost use Rattle.qg_extents.specs.BookRecords.{told_count, told_in};
ghost use Rattle.qg_extent_read.specs.Kept.{AreOnce, with_reference};
ghost use Rattle.qg_extent_read.specs.Looked.{TellsRecords, told_at};

use crate::ItemReader;
use crate::keys::key_at;
use crate::reading::read_items;
use crate::saying::said;
use qg_blocks::Blocks;
use qg_disk::Disk;
use qg_items::kind::{EXTENT_DATA_REF, SHARED_BLOCK_REF, SHARED_DATA_REF, TREE_BLOCK_REF};
use qg_node::Item;
use qg_num::{Address, BlockFault, NoMemory, Steps};
use qg_refs::{Counted, RefList, Reference};
use qg_tree_read::Tree;
use qg_walk::tree_items::image::ExtentPart;
use std::alloc::Global;
use std::marker::Model;
use std::sync::ledger::Ledger;

// References that were taken, each with its count, as their items stand.
#[derive(Drop)]
struct References {
    counts: Vec<Counted>,
}

impl Model for References {
    ghost use Rattle.std.specs.Prelude.{List};
    ghost use Rattle.qg_refs.specs.declared.counted.Counted.{Counted};

    ghost Value = { List Counted };

    ghost view = { λ references. references.counts.items };
}

impl ItemReader for References {
    ghost use Rattle.qg_extent_read.specs.Kept.{references_with};

    ghost after = { references_with };

    fn take(&mut self, item: &Item) -> Result<(), NoMemory> {
        match said(item) {
            None => Ok(()),
            Some(part) => put_reference(&mut self.counts, part),
        }
    }
}

fn put_reference(counts: &mut Vec<Counted>, part: ExtentPart) -> Result<(), NoMemory>
    ensures { OnOk result (counts.new.items ≡ with_reference counts.old.items part) }
{
    match part {
        ExtentPart::Referenced {
            reference,
            count,
            ..
        } => counts.push(Counted { reference, count })?,
        ExtentPart::DataRecord { .. } => {}
        ExtentPart::NodeRecord { .. } => {}
    }
    Ok(())
}

/// The references to what begins at an address, each with its count, where each is told once at most.
///
/// They are put in order once all are read.
pub fn refs_at<D: Disk, L: Ledger>(
    tree: &Tree,
    alloc: Global,
    blocks: &mut Blocks,
    disk: &mut D,
    at: Address,
    reads: &mut Steps<L>,
) -> Result<RefList, BlockFault>
    requires readable { IsReadable blocks.old (D.history disk.old) (D.size disk.old) }
    ensures found { (items : List ItemValue) → TellsTree Extents tree.now blocks.old.draft (D.history disk.old) items
        → is_told_once (told_in (told_at at items)) ≡ true
        → IfOk result (λ list. (reference : Named)
        → count_of list reference ≡ told_count (told_in (told_at at items)) reference) }
    ensures sound { (items : List ItemValue) → TellsTree Extents tree.now blocks.old.draft (D.history disk.old) items
        → BreaksNone result }
    ensures broken { (events : List Event) → D.history disk.old ≡ Recorded events
        → FailsOnWay Extents tree.now blocks.old.draft events result }
    ensures stops { StopsOnWay result Extents tree.now blocks.old.draft (D.size disk.old) }
    ensures readable { IsReadable blocks.new (D.history disk.new) (D.size disk.new) }
    ensures read { HasRead blocks.old blocks.new (D.history disk.old) (D.history disk.new) (D.size disk.old)
        (D.size disk.new) }
    ensures cause { HasCause BlockFault.Disk (D.faults disk.old) (D.faults disk.new) result }
    ensures rise { reads.old ≤ reads.new }
    ensures reads { (items : List ItemValue)
        → TellsRecords tree.now blocks.old.draft (D.history disk.old) items
        → reads.new ≤ reads.old + (16 + length (told_in (told_at at items))) }
{
    let mut references = References {
        counts: Vec::new(alloc),
    };
    let from = key_at(at, TREE_BLOCK_REF, 0);
    let to = key_at(at, SHARED_DATA_REF + 1, 0);
    read_items::<References, D, L>(tree, blocks, disk, from, to, &mut references, reads)?;
    Ok(ordered(alloc, references)?)
}

// References that are put in order. Of one that is there again, and of a count of 0, nothing is kept.
fn ordered(alloc: Global, references: References) -> Result<RefList, NoMemory>
    ensures { AreOnce references → IfOk result (λ list. (reference : Named)
        → count_of list reference ≡ count_of references reference) }
{
    let mut counts = references.counts;
    counts.sort_unstable_by_key(|entry| rank_of(&entry.reference));
    list_of(alloc, counts.as_slice())
}

fn list_of(alloc: Global, counts: &[Counted]) -> Result<RefList, NoMemory>
    ensures { AreOnce counts.now → IfOk result (λ list. (reference : Named)
        → count_of list reference ≡ count_of counts.now reference) }
{
    let mut list = RefList::new(alloc);
    for entry in counts {
        if entry.count > 0 && list.count(&entry.reference) == 0 {
            list.put(entry.reference, entry.count)?;
        }
    }
    Ok(list)
}

// What a list of references is ordered by: the type of its item, and what it is from. A list in this order grows at its
// end.
fn rank_of(reference: &Reference) -> ((u8, u64), (u64, u64)) {
    match *reference {
        Reference::KeyedBlock { root } => ((TREE_BLOCK_REF, root.value()), (0, 0)),
        Reference::KeyedData { root, ino, offset } => {
            ((EXTENT_DATA_REF, root.value()), (ino.value(), offset))
        }
        Reference::SharedBlock { parent } => ((SHARED_BLOCK_REF, parent.value()), (0, 0)),
        Reference::SharedData { parent } => ((SHARED_DATA_REF, parent.value()), (0, 0)),
    }
}
