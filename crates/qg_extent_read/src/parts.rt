// All that stands at an address.
ghost use Rattle.std.specs.Prelude.{◌≡◌, ◌+◌, ◌≤◌, ◌++◌, ◌∷◌, [], List, length, IfOk, OnOk};
ghost use Rattle.qg_device.specs.Cause.{HasCause};
ghost use Rattle.qg_device.specs.History.{Event, Recorded};
ghost use Rattle.qg_node.specs.declared.item.Item.{Item as ItemValue};
ghost use Rattle.qg_blocks.specs.NodesFound.{BreaksNone};
ghost use Rattle.qg_tree_items.specs.Types.{Extents};
ghost use Rattle.qg_tree_read.specs.Stopping.{StopsOnWay};
ghost use Rattle.qg_tree_read.specs.Tree.{TellsTree};
ghost use Rattle.qg_tree_read.specs.Way.{FailsOnWay, HasRead, IsReadable};
ghost use Rattle.qg_extent_read.specs.Looked.{TellsRecords, told_at};

use crate::ItemReader;
use crate::keys::key_at;
use crate::reading::read_items;
use crate::saying::said;
use qg_blocks::Blocks;
use qg_disk::Disk;
use qg_items::kind::{EXTENT_ITEM, SHARED_DATA_REF};
use qg_node::Item;
use qg_num::{Address, BlockFault, NoMemory, Steps};
use qg_tree_read::Tree;
use qg_walk::tree_items::image::ExtentPart;
use std::alloc::Global;
use std::marker::Model;
use std::sync::ledger::Ledger;

// All parts that were taken, in their order.
#[derive(Drop)]
struct Parts {
    parts: Vec<ExtentPart>,
}

impl Model for Parts {
    ghost use Rattle.std.specs.Prelude.{List};
    ghost use Rattle.qg_tree_items.specs.Types.{ExtentPart};

    ghost Value = { List ExtentPart };

    ghost view = { λ all. all.parts.items };
}

impl ItemReader for Parts {
    ghost use Rattle.qg_extent_read.specs.Kept.{parts_with};

    ghost after = { parts_with };

    fn take(&mut self, item: &Item) -> Result<(), NoMemory> {
        match said(item) {
            None => Ok(()),
            Some(part) => put_part(&mut self.parts, part),
        }
    }
}

// Each part is made anew: the toolchain finds no proof of one that is passed on whole.
fn put_part(parts: &mut Vec<ExtentPart>, part: ExtentPart) -> Result<(), NoMemory>
    ensures { OnOk result (parts.new.items ≡ parts.old.items ++ part ∷ []) }
{
    match part {
        ExtentPart::DataRecord {
            address,
            bytes,
            extent,
        } => parts.push(ExtentPart::DataRecord {
            address,
            bytes,
            extent,
        })?,
        ExtentPart::NodeRecord {
            address,
            level,
            extent,
        } => parts.push(ExtentPart::NodeRecord {
            address,
            level,
            extent,
        })?,
        ExtentPart::Referenced {
            address,
            reference,
            count,
        } => parts.push(ExtentPart::Referenced {
            address,
            reference,
            count,
        })?,
    }
    Ok(())
}

/// What the items of an address say, in the order of their keys: its record, and then the references to it.
///
/// `Image` comes over any disk only at an address on the way down, where there is no node such as the way leads to
/// expect.
pub fn parts_at<D: Disk, L: Ledger>(
    tree: &Tree,
    alloc: Global,
    blocks: &mut Blocks,
    disk: &mut D,
    at: Address,
    reads: &mut Steps<L>,
) -> Result<Vec<ExtentPart>, BlockFault>
    requires readable { IsReadable blocks.old (D.history disk.old) (D.size disk.old) }
    ensures found { (items : List ItemValue) → TellsTree Extents tree.now blocks.old.draft (D.history disk.old) items
        → IfOk result (λ parts. parts.items ≡ told_at at items) }
    ensures sound { (items : List ItemValue) → TellsTree Extents tree.now blocks.old.draft (D.history disk.old) items
        → BreaksNone result }
    ensures broken { (events : List Event) → D.history disk.old ≡ Recorded events
        → FailsOnWay Extents tree.now blocks.old.draft events result }
    ensures stops { StopsOnWay result Extents tree.now blocks.old.draft (D.size disk.old) }
    ensures readable { IsReadable blocks.new (D.history disk.new) (D.size disk.new) }
    ensures read { HasRead blocks.old blocks.new (D.history disk.old) (D.history disk.new) (D.size disk.old)
        (D.size disk.new) }
    ensures cause { HasCause BlockFault.Disk (D.faults disk.old) (D.faults disk.new) result }
    ensures rise { reads.old ≤ reads.new }
    ensures reads { (items : List ItemValue)
        → TellsRecords tree.now blocks.old.draft (D.history disk.old) items
        → reads.new ≤ reads.old + (16 + length (told_at at items)) }
{
    let mut all = Parts {
        parts: Vec::new(alloc),
    };
    let from = key_at(at, EXTENT_ITEM, 0);
    let to = key_at(at, SHARED_DATA_REF + 1, 0);
    read_items::<Parts, D, L>(tree, blocks, disk, from, to, &mut all, reads)?;
    Ok(all.parts)
}
