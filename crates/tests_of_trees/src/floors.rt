// A tree of three levels that was written, over a disk and with room for one clean node: that each look-up reads again,
// and which nodes an edit copies, which no clause says. All numbers were worked out by hand.
ghost use Rattle.std.specs.Prelude.{◌≡◌, ◌<◌};

use crate::plain::{Entry, Plain, all_items, are, empty_tree, key_of, put, take};
use qg_disk::{Disk, MemDisk};
use qg_num::BlockFault;
use std::alloc::{AllocError, Global};
use std::marker::Brand;
use std::process::Abort;
use std::sync::ledger::{Blank, Ledger};
use std::test::Fail;
use tree_setting::Setting;

/// How many items the tree has: with the even numbers from 2 on.
const ITEMS: u64 = 244;

/// How many nodes it has: 122 leaves, two nodes of level 1 with 61 pointers each, and the root.
pub(crate) const NODES: u64 = 125;

/// The item with a number.
pub(crate) fn entry_of(number: u64, byte: u8) -> Entry {
    Entry {
        number,
        length: 1024,
        byte,
    }
}

/// The items of the tree.
pub(crate) fn even_items(alloc: Global) -> Result<Plain, AllocError> {
    let mut plain = Plain::new(alloc);
    for i in 1..=ITEMS {
        plain.entries.push(entry_of(2 * i, 1))?;
    }
    Ok(plain)
}

/// The tree, whose nodes are fresh.
///
/// Items of 1049 bytes come in with descending keys. A leaf that gets a fourth one is cut in two and two, and then it
/// is the front one that gets more, so that each has two in the end. At its 122nd pointer the root is cut at a half
/// too.
pub(crate) fn three_levels<D: Disk + Drop, L: Ledger>(
    alloc: Global,
    disk: D,
    blank: Blank,
) -> Result<Setting<D, L>, BlockFault>
    requires name { blank.name ≡ L.name }
    requires parts { blank.parts ≡ L.parts }
    requires full { 0 < blank.parts }
{
    let mut setting = empty_tree(alloc, disk, 1, blank)?;
    for i in 0..ITEMS {
        setting.insert(key_of(2 * (ITEMS - i)), &[1; 1024])?;
    }
    Ok(setting)
}

// Looks up each item. Each time the three nodes on the way are read again.
fn look_up_each<L: Ledger>(
    rt: &impl Abort,
    setting: &mut Setting<MemDisk, L>,
    plain: &Plain,
) -> Result<(), Fail> {
    let _ = setting.get(key_of(0))?;
    for entry in &plain.entries {
        let before = setting.disk.calls().len();
        let found = setting.get(key_of(entry.number))?;
        assert!(rt;
            found.is_some_and(|body| entry.has(&body)),
            "{}",
            entry.number
        );
        assert!(rt;
            setting.disk.calls().len() == before + 3,
            "{}",
            entry.number
        );
    }
    Ok(())
}

// An edit of the tree and of the list.
#[derive(Clone, Copy, Debug)]
enum Edit {
    Put(u64),
    Take(u64),
    DropFirst,
}

fn edit_both<L: Ledger>(
    setting: &mut Setting<MemDisk, L>,
    plain: &mut Plain,
    edit: Edit,
) -> Result<(), BlockFault> {
    match edit {
        Edit::Put(number) => put(setting, plain, entry_of(number, 2)),
        Edit::Take(number) => take(setting, plain, number),
        Edit::DropFirst => {
            plain.drop_first(2);
            setting.drop_first_leaf()
        }
    }
}

// Edits of the tree as it was committed. Of each, how many nodes the book was told of, and how many slots are taken
// then.
const EDITS: [(Edit, u64, u64); 9] = [
    // The root, a node of level 1 and the first leaf are copied. The last commit holds their slots.
    (Edit::Put(2), 3, 128),
    (Edit::Put(4), 0, 128),
    // The second leaf is.
    (Edit::Put(6), 1, 129),
    // The first leaf gets a third item and a fourth, and is cut in two.
    (Edit::Put(5), 0, 129),
    (Edit::Put(3), 1, 130),
    // The third leaf is copied. It gets empty, takes all of the fourth one, which is copied for that, and the copy is
    // left.
    (Edit::Take(10), 1, 131),
    (Edit::Take(12), 2, 131),
    // The first leaf takes all of the second one, which is left.
    (Edit::DropFirst, 1, 130),
    // The last leaf and the node above it are copied.
    (Edit::Put(489), 2, 132),
];

fn edit_written<L: Ledger>(rt: &impl Abort, alloc: Global, blank: Blank) -> Result<(), Fail>
    requires name { blank.name ≡ L.name }
    requires parts { blank.parts ≡ L.parts }
    requires full { 0 < blank.parts }
{
    let mut setting = three_levels::<MemDisk, L>(alloc, MemDisk::new(alloc), blank)?;
    let mut plain = even_items(alloc)?;
    assert!(rt; setting.height() == 2 && setting.told() == NODES);
    assert!(rt; setting.used_slots() == NODES && setting.fresh()?.len() as u64 == NODES);
    let mut setting = setting.commit()?;
    assert!(rt; setting.fresh()?.is_empty());
    look_up_each(rt, &mut setting, &plain)?;
    for (one, told, used) in EDITS {
        let before = setting.told();
        edit_both(&mut setting, &mut plain, one)?;
        assert!(rt; setting.told() == before.saturating_add(told), "{one:?}");
        assert!(rt; setting.used_slots() == used, "{one:?}");
    }
    let mut setting = setting.commit()?;
    // A leaf more by the cut, and two less.
    assert!(rt; setting.used_slots() == NODES - 1);
    assert!(rt; are(&all_items(&mut setting)?, &plain.entries));
    Ok(())
}

#[test]
fn a_written_tree_is_read_again_and_copied(rt: HostRuntime) -> Result<(), Fail> {
    edit_written::<Brand>(&rt, rt.alloc(), Blank::new(1))
}
