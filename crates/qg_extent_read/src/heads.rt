// The record of what begins at an address.
ghost use Rattle.std.specs.Prelude.{◌≡◌, ◌+◌, ◌≤◌, List, length, IfOk};
ghost use Rattle.std.specs.List.{filter};
ghost use Rattle.qg_device.specs.Cause.{HasCause};
ghost use Rattle.qg_device.specs.History.{Event, Recorded};
ghost use Rattle.qg_node.specs.declared.item.Item.{Item as ItemValue};
ghost use Rattle.qg_blocks.specs.NodesFound.{BreaksNone};
ghost use Rattle.qg_tree_items.specs.Owed.{is_record};
ghost use Rattle.qg_tree_items.specs.Types.{Extents};
ghost use Rattle.qg_tree_read.specs.Stopping.{StopsOnWay};
ghost use Rattle.qg_tree_read.specs.Tree.{TellsTree};
ghost use Rattle.qg_tree_read.specs.Way.{FailsOnWay, HasRead, IsReadable};
ghost use Rattle.qg_extents.specs.BookRecords.{the_record};
ghost use Rattle.qg_extent_read.specs.Kept.{one_more, only_of, with_record};
ghost use Rattle.qg_extent_read.specs.Looked.{IsHead, TellsRecords, told_at};

use crate::ItemReader;
use crate::keys::key_at;
use crate::reading::read_items;
use crate::saying::said;
use qg_blocks::Blocks;
use qg_disk::Disk;
use qg_extents::{Head, head_of, is_record};
use qg_items::kind::{EXTENT_ITEM, METADATA_ITEM};
use qg_node::Item;
use qg_num::{Address, BlockFault, NoMemory, Steps};
use qg_tree_read::Tree;
use qg_walk::tree_items::image::ExtentPart;
use std::sync::ledger::Ledger;

// Records that were taken.
#[derive(Clone, Copy)]
enum Records {
    Nothing,
    One(ExtentPart),
    Several,
}

impl ItemReader for Records {
    ghost use Rattle.qg_extent_read.specs.Kept.{records_with};

    ghost after = { records_with };

    fn take(&mut self, item: &Item) -> Result<(), NoMemory> {
        if let Some(part) = said(item) {
            *self = with_record(*self, part);
        }
        Ok(())
    }
}

fn with_record(records: Records, part: ExtentPart) -> Records
    ensures { result ≡ with_record records part }
{
    if is_record(&part) {
        one_more(records, part)
    } else {
        records
    }
}

fn one_more(records: Records, part: ExtentPart) -> Records
    ensures { result ≡ one_more records part }
{
    match records {
        Records::Nothing => Records::One(part),
        Records::One(_) => Records::Several,
        Records::Several => Records::Several,
    }
}

/// What the record of an address tells, if there is just one and it is sound: what begins there, its full mark, and the
/// sum of the counts of the references to it. It takes no memory, and reads 17 nodes at most where there is one.
pub fn head_at<D: Disk, L: Ledger>(
    tree: &Tree,
    blocks: &mut Blocks,
    disk: &mut D,
    at: Address,
    reads: &mut Steps<L>,
) -> Result<Option<Head>, BlockFault>
    requires readable { IsReadable blocks.old (D.history disk.old) (D.size disk.old) }
    ensures found { (items : List ItemValue) → TellsTree Extents tree.now blocks.old.draft (D.history disk.old) items
        → IfOk result (λ head. IsHead blocks.old.draft.sizes.nodesize (the_record (told_at at items)) head) }
    ensures sound { (items : List ItemValue) → TellsTree Extents tree.now blocks.old.draft (D.history disk.old) items
        → BreaksNone result }
    ensures broken { (events : List Event) → D.history disk.old ≡ Recorded events
        → FailsOnWay Extents tree.now blocks.old.draft events result }
    ensures stops { StopsOnWay result Extents tree.now blocks.old.draft (D.size disk.old) }
    ensures readable { IsReadable blocks.new (D.history disk.new) (D.size disk.new) }
    ensures read { HasRead blocks.old blocks.new (D.history disk.old) (D.history disk.new) (D.size disk.old)
        (D.size disk.new) }
    ensures cause { HasCause BlockFault.Disk (D.faults disk.old) (D.faults disk.new) result }
    ensures rise { reads.old ≤ reads.new }
    ensures reads { (items : List ItemValue)
        → TellsRecords tree.now blocks.old.draft (D.history disk.old) items
        → reads.new ≤ reads.old + (16 + length (filter is_record (told_at at items))) }
{
    let mut records = Records::Nothing;
    let from = key_at(at, EXTENT_ITEM, 0);
    let to = key_at(at, METADATA_ITEM + 1, 0);
    read_items::<Records, D, L>(tree, blocks, disk, from, to, &mut records, reads)?;
    Ok(head_among(blocks.nodesize(), records))
}

// What an only record tells, if it is sound. A node has so many bytes.
fn head_among(nodesize: u32, records: Records) -> Option<Head>
    ensures { IsHead nodesize (only_of records) result }
{
    match records {
        Records::One(part) => head_of(nodesize, &part),
        Records::Nothing => None,
        Records::Several => None,
    }
}
