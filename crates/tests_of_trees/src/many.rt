// Many edits beside a plain sorted list, with commits between them. That the tree has the list's items a clause says
// too; this is to show that the definitions say what they mean, that nodes of all levels are cut and joined on the way,
// and that no slot is lost, which none says.
ghost use Rattle.std.specs.Prelude.{◌≡◌, ◌≤◌, ◌<◌};
ghost use Rattle.qg_blocks.specs.NodesInMemory.{most_clean};

use crate::plain::{Entry, Plain, all_items, are, bytes_of, empty_tree, put, take};
use qg_disk::{Disk, SureDisk};
use qg_num::BlockFault;
use std::alloc::Global;
use std::marker::Brand;
use std::process::Abort;
use std::sync::ledger::{Blank, Ledger};
use std::test::Fail;
use tree_setting::Setting;

// What items or pointers may take of a node of 4096 bytes behind its header, and must where it is not the root: a
// quarter.
const MOST: u64 = 3995;

const LEAST: u64 = 999;

// Pointers take 33 bytes each: so many there are at most in such a node, and at least where it is not the root.
const MOST_POINTERS: u64 = 121;

const LEAST_POINTERS: u64 = 31;

// Numbers that look drawn, and are the same in each run.
#[derive(Drop)]
struct Draws {
    state: u64,
}

impl Draws {
    // A number below a bound.
    fn below(&mut self, bound: u64) -> u64
        requires { 0 < bound }
        ensures { result < bound }
    {
        self.state = self
            .state
            .wrapping_mul(6364136223846793005)
            .wrapping_add(1442695040888963407);
        (self.state >> 33) % bound
    }

    // The body that an item is to have: of 53 bytes, or one time in four of any number up to 1024.
    fn entry(&mut self, number: u64) -> Entry {
        let length = if self.below(4) > 0 {
            53
        } else {
            self.below(1025) as usize
        };
        let byte = self.below(256) as u8;
        Entry {
            number,
            length,
            byte,
        }
    }
}

// An edit of a tree that is to grow: seven times in eight an item is put in.
fn grow<D: Disk + Drop, L: Ledger>(
    setting: &mut Setting<D, L>,
    plain: &mut Plain,
    draws: &mut Draws,
) -> Result<(), BlockFault> {
    let number = draws.below(4000);
    if draws.below(8) == 0 {
        return take(setting, plain, number);
    }
    put(setting, plain, draws.entry(number))
}

// An edit of a tree that is to shrink: seven times in eight an item that is there is taken out, else it gets another
// body.
fn shrink<D: Disk + Drop, L: Ledger>(
    setting: &mut Setting<D, L>,
    plain: &mut Plain,
    draws: &mut Draws,
) -> Result<(), BlockFault> {
    let count = plain.entries.len();
    if count == 0 {
        return Ok(());
    }
    let place = draws.below(count as u64) as usize;
    let number = plain.entries[place].number;
    if draws.below(8) > 0 {
        return take(setting, plain, number);
    }
    put(setting, plain, draws.entry(number))
}

// Whether a tree of this height, whose items take so many bytes, may have so many nodes.
fn is_plausible(bytes: u64, height: u8, nodes: u64) -> bool {
    if height == 0 {
        return nodes == 1 && bytes <= MOST;
    }
    let (mut fewest, mut most) = (bytes.div_ceil(MOST), bytes / LEAST);
    let (mut least, mut greatest) = (fewest, most);
    for _ in 1..height {
        fewest = fewest.div_ceil(MOST_POINTERS);
        most /= LEAST_POINTERS;
        least = least.saturating_add(fewest);
        greatest = greatest.saturating_add(most);
    }
    let is_high = fewest <= MOST_POINTERS && most >= 2;
    is_high && least < nodes && nodes <= greatest.saturating_add(1)
}

// Commits, and sees that the tree has the list's items, as many nodes as it may have, and that no other slot is taken.
fn commit_and_compare<D: Disk + Drop, L: Ledger>(
    rt: &impl Abort,
    setting: Setting<D, L>,
    plain: &Plain,
) -> Result<Setting<D, L>, Fail> {
    let mut setting = setting.commit()?;
    assert!(rt; are(&all_items(&mut setting)?, &plain.entries));
    let (height, nodes) = (setting.height(), setting.used_slots());
    assert!(rt;
        is_plausible(plain.bytes(), height, nodes),
        "{height} {nodes}"
    );
    Ok(setting)
}

// Drops the first leaf, and from the list what the tree has no more, which stood in front and filled a leaf.
fn drop_one<D: Disk + Drop, L: Ledger>(
    rt: &impl Abort,
    setting: &mut Setting<D, L>,
    plain: &mut Plain,
) -> Result<(), Fail> {
    setting.drop_first_leaf()?;
    let items = all_items(setting)?;
    assert!(rt; items.len() < plain.entries.len());
    let gone = plain.entries.len() - items.len();
    let bytes = bytes_of(&plain.entries[..gone]);
    assert!(rt;
        bytes <= MOST && (items.is_empty() || bytes >= LEAST),
        "{bytes}"
    );
    plain.drop_first(gone);
    assert!(rt; are(&items, &plain.entries));
    Ok(())
}

fn edit_many<L: Ledger>(
    rt: &impl Abort,
    alloc: Global,
    bound: usize,
    blank: Blank,
) -> Result<(), Fail>
    requires some { 1 ≤ bound }
    requires most { bound ≤ most_clean }
    requires name { blank.name ≡ L.name }
    requires parts { blank.parts ≡ L.parts }
    requires full { 0 < blank.parts }
{
    let mut setting = empty_tree::<SureDisk, L>(alloc, SureDisk::new(alloc), bound, blank)?;
    let mut plain = Plain::new(alloc);
    let mut draws = Draws { state: 1 };
    for _ in 0..8u32 {
        for _ in 0..375u32 {
            grow(&mut setting, &mut plain, &mut draws)?;
        }
        setting = commit_and_compare(rt, setting, &plain)?;
    }
    assert!(rt; setting.height() == 2);
    for _ in 0..5u32 {
        for _ in 0..400u32 {
            shrink(&mut setting, &mut plain, &mut draws)?;
        }
        setting = commit_and_compare(rt, setting, &plain)?;
    }
    assert!(rt; setting.height() == 1);
    for _ in 0..200u32 {
        if !plain.entries.is_empty() {
            drop_one(rt, &mut setting, &mut plain)?;
        }
    }
    assert!(rt; plain.entries.is_empty());
    let setting = commit_and_compare(rt, setting, &plain)?;
    assert!(rt; setting.height() == 0 && setting.used_slots() == 1);
    Ok(())
}

#[test]
fn many_edits_are_those_of_a_list(rt: HostRuntime) -> Result<(), Fail> {
    edit_many::<Brand>(&rt, rt.alloc(), 256, Blank::new(1))
}
