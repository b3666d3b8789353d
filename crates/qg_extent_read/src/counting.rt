// How often a reference is there.
ghost use Rattle.std.specs.Prelude.{◌≡◌, ◌+◌, ◌≤◌, true, List, length, IfOk};
ghost use Rattle.qg_device.specs.Cause.{HasCause};
ghost use Rattle.qg_device.specs.History.{Event, Recorded};
ghost use Rattle.qg_node.specs.declared.item.Item.{Item as ItemValue};
ghost use Rattle.qg_blocks.specs.NodesFound.{BreaksNone};
ghost use Rattle.qg_tree_items.specs.Owed.{is_told_once};
ghost use Rattle.qg_tree_items.specs.Types.{Extents};
ghost use Rattle.qg_tree_read.specs.Stopping.{StopsOnWay};
ghost use Rattle.qg_tree_read.specs.Tree.{TellsTree};
ghost use Rattle.qg_tree_read.specs.Way.{FailsOnWay, HasRead, IsReadable};
ghost use Rattle.qg_extents.specs.BookRecords.{told_count, told_in};
ghost use Rattle.qg_extent_read.specs.Kept.{with_count};
ghost use Rattle.qg_extent_read.specs.Looked.{TellsRecords, told_at};

use crate::ItemReader;
use crate::keys::{reference_from, reference_to};
use crate::reading::read_items;
use crate::saying::said;
use qg_blocks::Blocks;
use qg_disk::Disk;
use qg_node::Item;
use qg_num::{Address, BlockFault, NoMemory, Steps};
use qg_refs::{Reference, is_same};
use qg_tree_read::Tree;
use qg_walk::tree_items::image::ExtentPart;
use std::sync::ledger::Ledger;

// A reference that is asked for, and the count that was told of it.
#[derive(Drop)]
struct Counting {
    reference: Reference,
    count: u32,
}

impl ItemReader for Counting {
    ghost use Rattle.qg_extent_read.specs.Kept.{counting_with};

    ghost after = { counting_with };

    fn take(&mut self, item: &Item) -> Result<(), NoMemory> {
        if let Some(part) = said(item) {
            count_part(self, part);
        }
        Ok(())
    }
}

fn count_part(counting: &mut Counting, part: ExtentPart)
    ensures { counting.new ≡ with_count counting.old part }
{
    match part {
        ExtentPart::Referenced {
            reference,
            count,
            ..
        } => {
            if is_same(&counting.reference, &reference) {
                counting.count = count;
            }
        }
        ExtentPart::DataRecord { .. } => {}
        ExtentPart::NodeRecord { .. } => {}
    }
}

/// How often a reference to what begins at an address is there, where it is told once at most; 0 where it is not. It
/// takes no memory.
///
/// All but an EXTENT_DATA_REF are found by their keys; those are read one after another.
pub fn count_at<D: Disk, L: Ledger>(
    tree: &Tree,
    blocks: &mut Blocks,
    disk: &mut D,
    at: Address,
    reference: Reference,
    reads: &mut Steps<L>,
) -> Result<u32, BlockFault>
    requires readable { IsReadable blocks.old (D.history disk.old) (D.size disk.old) }
    ensures found { (items : List ItemValue) → TellsTree Extents tree.now blocks.old.draft (D.history disk.old) items
        → is_told_once (told_in (told_at at items)) ≡ true
        → IfOk result (λ count. count ≡ told_count (told_in (told_at at items)) reference) }
    ensures sound { (items : List ItemValue) → TellsTree Extents tree.now blocks.old.draft (D.history disk.old) items
        → BreaksNone result }
    ensures broken { (events : List Event) → D.history disk.old ≡ Recorded events
        → FailsOnWay Extents tree.now blocks.old.draft events result }
    ensures stops { StopsOnWay result Extents tree.now blocks.old.draft (D.size disk.old) }
    ensures readable { IsReadable blocks.new (D.history disk.new) (D.size disk.new) }
    ensures read { HasRead blocks.old blocks.new (D.history disk.old) (D.history disk.new) (D.size disk.old)
        (D.size disk.new) }
    ensures cause { HasCause BlockFault.Disk (D.faults disk.old) (D.faults disk.new) result }
    ensures rise { reads.old ≤ reads.new }
    ensures reads { (items : List ItemValue)
        → TellsRecords tree.now blocks.old.draft (D.history disk.old) items
        → reads.new ≤ reads.old + (16 + length (told_at at items)) }
{
    let mut counting = Counting {
        reference,
        count: 0,
    };
    let from = reference_from(at, &reference);
    let to = reference_to(at, &reference);
    read_items::<Counting, D, L>(tree, blocks, disk, from, to, &mut counting, reads)?;
    Ok(counting.count)
}
