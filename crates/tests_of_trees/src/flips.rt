// What is answered over a disk that tells nothing and changes by itself, of which no clause says that it is right: each
// call over a tree of three levels, where after so many reads a bit of what is read is another. How many reads a call
// takes was worked out by hand.
ghost use Rattle.std.specs.Prelude.{◌≡◌, ◌<◌};

mod disk;

use crate::floors::{NODES, entry_of, even_items, three_levels};
use crate::plain::{Plain, all_items, are, key_of, put, take};
use disk::FlipDisk;
use qg_num::{BlockFault, Rule};
use std::alloc::Global;
use std::marker::Brand;
use std::process::Abort;
use std::sync::ledger::{Blank, Ledger};
use std::test::Fail;
use tree_setting::Setting;

// What is called.
#[derive(Clone, Copy, Debug)]
enum Call {
    Get,
    LastTo,
    Range,
    Insert,
    Replace,
    Remove,
    DropFirst,
    DropMany,
}

// Calls, and how many reads each takes where no node is in memory and there is room for one.
const CALLS: [(Call, u64); 8] = [
    // The way to a leaf.
    (Call::Get, 3),
    (Call::LastTo, 3),
    // The way to each of three leaves.
    (Call::Range, 9),
    (Call::Insert, 3),
    (Call::Replace, 3),
    (Call::Remove, 3),
    // The next leaf too, which the first one takes.
    (Call::DropFirst, 4),
    // The way to the first leaf, the 31 leaves behind it, and at last the other node of level 1, since 30 pointers are
    // too few.
    (Call::DropMany, 35),
];

// Does a call, to the list too. Where it reads the tree, the answer is whether what it gives is right.
fn make_call<L: Ledger>(
    setting: &mut Setting<FlipDisk, L>,
    plain: &mut Plain,
    which: Call,
) -> Result<bool, BlockFault> {
    match which {
        Call::Get => {
            let found = setting.get(key_of(200))?;
            return Ok(found.is_some_and(|body| entry_of(200, 1).has(&body)));
        }
        Call::LastTo => {
            let found = setting.last_to(key_of(201))?;
            return Ok(found.is_some_and(|item| entry_of(200, 1).is(&item)));
        }
        Call::Range => {
            let found = setting.range(key_of(3), key_of(10))?;
            let [first, second] = [entry_of(4, 1), entry_of(6, 1)];
            let [third, fourth] = [entry_of(8, 1), entry_of(10, 1)];
            return Ok(are(&found, &[first, second, third, fourth]));
        }
        Call::Insert => put(setting, plain, entry_of(201, 2))?,
        Call::Replace => put(setting, plain, entry_of(200, 2))?,
        Call::Remove => take(setting, plain, 200)?,
        Call::DropFirst => drop_first(setting, plain, 1)?,
        Call::DropMany => drop_first(setting, plain, 31)?,
    }
    Ok(true)
}

// Drops so many leaves of two items.
fn drop_first<L: Ledger>(
    setting: &mut Setting<FlipDisk, L>,
    plain: &mut Plain,
    count: u32,
) -> Result<(), BlockFault> {
    for _ in 0..count {
        setting.drop_first_leaf()?;
        plain.drop_first(2);
    }
    Ok(())
}

// Whether a call is answered as it should, where what is read is right so many times alone: with a checksum that is
// wrong where it takes more reads, and else so that the tree is right.
fn is_right<L: Ledger>(
    alloc: Global,
    setting: &mut Setting<FlipDisk, L>,
    which: Call,
    right: u64,
    reads: u64,
) -> Result<bool, BlockFault> {
    let mut plain = even_items(alloc)?;
    setting.disk.flip_after(right);
    let answer = make_call(setting, &mut plain, which);
    setting.disk.flip_after(u64::MAX);
    match answer {
        Err(BlockFault::Image { rule, .. }) => Ok(rule == Rule::Csum && right < reads),
        Err(fault) => Err(fault),
        Ok(is_found) => {
            Ok(is_found && right >= reads && are(&all_items(setting)?, &plain.entries))
        }
    }
}

fn flip_each<L: Ledger>(rt: &impl Abort, alloc: Global, blank: Blank) -> Result<(), Fail>
    requires name { blank.name ≡ L.name }
    requires parts { blank.parts ≡ L.parts }
    requires full { 0 < blank.parts }
{
    let setting = three_levels::<FlipDisk, L>(alloc, FlipDisk::new(alloc), blank)?;
    let root = setting.root();
    let mut setting = setting.commit()?;
    for (which, reads) in CALLS {
        for right in 0..=reads {
            setting = setting.opened_again(root, 2, NODES, 1)?;
            let holds = is_right(alloc, &mut setting, which, right, reads)?;
            assert!(rt; holds, "{which:?} after {right}");
        }
    }
    Ok(())
}

#[test]
fn a_changed_bit_is_found_or_not_read(rt: HostRuntime) -> Result<(), Fail> {
    flip_each::<Brand>(&rt, rt.alloc(), Blank::new(1))
}
