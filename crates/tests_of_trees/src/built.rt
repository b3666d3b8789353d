// A tree of three levels that was built of items in order, read and then edited. Heights and counts were worked out by
// hand.
ghost use Rattle.std.specs.Prelude.{◌≡◌, ◌<◌};

use crate::plain::key_of;
use qg_disk::SureDisk;
use qg_node::{Body, Item, Items};
use qg_num::BlockFault;
use std::alloc::{AllocError, Global};
use std::marker::Brand;
use std::process::Abort;
use std::sync::ledger::{Blank, Ledger};
use std::test::Fail;
use tree_setting::Setting;

// The tree is built of items with the even numbers below this one: 400 of them.
const END: u64 = 800;

// An item with a body of 1000 bytes takes 1025 of a leaf, which has 3995 for items: three of them go into one.
const LENGTH: usize = 1000;

// 400 items take 134 leaves, the last of one item. Of their pointers, of 33 bytes each, at most 121 go into a node, so
// two nodes lead to them, and a root to those.
const NODES: u64 = 137;

fn byte_of(number: u64) -> u8 {
    (number % 251) as u8
}

// The numbers of the items that are to be there: the even ones, less those that were taken out, and those put in.
fn numbers_of(alloc: Global, put: &[u64], taken: &[u64]) -> Result<Vec<u64>, AllocError> {
    let mut numbers = Vec::new(alloc);
    for number in 0..END {
        if number % 2 == 0 && !taken.contains(&number) || put.contains(&number) {
            numbers.push(number)?;
        }
    }
    Ok(numbers)
}

fn items_of(alloc: Global, numbers: &[u64]) -> Result<Items, BlockFault> {
    let mut items = Items::new(alloc);
    for number in numbers {
        let body = Body::from_slice(alloc, &[byte_of(*number); LENGTH])?;
        items.push(Item {
            key: key_of(*number),
            body,
        })?;
    }
    Ok(items)
}

// Whether an item is the one with this number.
fn is_item(item: &Item, number: u64) -> bool {
    let bytes = item.body.as_slice();
    item.key == key_of(number)
        && bytes.len() == LENGTH
        && bytes.iter().all(|byte| *byte == byte_of(number))
}

// Whether items are those with these numbers.
fn are_items(items: &[Item], numbers: &[u64]) -> bool {
    items.len() == numbers.len()
        && items
            .iter()
            .zip(numbers)
            .all(|(item, number)| is_item(item, *number))
}

// Whether the tree has the items that it was built of, less those taken out, and those put in, and no others.
fn has_items<L: Ledger>(
    alloc: Global,
    setting: &mut Setting<SureDisk, L>,
    put: &[u64],
    taken: &[u64],
) -> Result<bool, BlockFault> {
    let items = setting.range(key_of(0), key_of(u64::MAX))?;
    let numbers = numbers_of(alloc, put, taken)?;
    Ok(are_items(items.as_slice(), &numbers))
}

// Whether the tree has the nodes that it is to, each of them fresh, and the book was told of each.
fn has_nodes<L: Ledger>(setting: &Setting<SureDisk, L>) -> Result<bool, BlockFault> {
    let fresh = setting.fresh()?.len() as u64;
    let counts = [setting.told(), setting.used_slots(), fresh];
    Ok(setting.height() == 2 && counts.iter().all(|count| *count == NODES))
}

fn put<L: Ledger>(setting: &mut Setting<SureDisk, L>, number: u64) -> Result<(), BlockFault> {
    setting.insert(key_of(number), &[byte_of(number); LENGTH])
}

#[tactic(auto, unfolding(qg_super::specs::Places::is_served))]
fn built<L: Ledger>(alloc: Global, blank: Blank) -> Result<Setting<SureDisk, L>, BlockFault>
    requires name { blank.name ≡ L.name }
    requires parts { blank.parts ≡ L.parts }
    requires full { 0 < blank.parts }
{
    let numbers = numbers_of(alloc, &[], &[])?;
    let items = items_of(alloc, &numbers)?;
    Setting::built(alloc, SureDisk::new(alloc), 4096, 1024, 256, blank, &items)
}

// Edits of fresh nodes: a full leaf is cut in two, and the last one and the first one are changed in place.
fn edit_fresh<L: Ledger>(setting: &mut Setting<SureDisk, L>) -> Result<(), BlockFault> {
    put(setting, 301)?;
    put(setting, 799)?;
    setting.remove(key_of(0))
}

// Edits of nodes that were written.
fn edit_written<L: Ledger>(setting: &mut Setting<SureDisk, L>) -> Result<(), BlockFault> {
    put(setting, 401)?;
    setting.remove(key_of(400))
}

fn build_and_edit<L: Ledger>(rt: &impl Abort, alloc: Global, blank: Blank) -> Result<(), Fail>
    requires name { blank.name ≡ L.name }
    requires parts { blank.parts ≡ L.parts }
    requires full { 0 < blank.parts }
{
    let mut setting = built::<L>(alloc, blank)?;
    assert!(rt; has_nodes(&setting)?);
    assert!(rt; has_items(alloc, &mut setting, &[], &[])?);
    edit_fresh(&mut setting)?;
    assert!(rt; setting.told() == NODES + 1);
    assert!(rt; has_items(alloc, &mut setting, &[301, 799], &[0])?);
    let mut setting = setting.commit()?;
    edit_written(&mut setting)?;
    assert!(rt; has_items(alloc, &mut setting, &[301, 401, 799], &[0, 400])?);
    Ok(())
}

#[test]
fn a_built_tree_is_read_and_edited(rt: HostRuntime) -> Result<(), Fail> {
    build_and_edit::<Brand>(&rt, rt.alloc(), Blank::new(1))
}
