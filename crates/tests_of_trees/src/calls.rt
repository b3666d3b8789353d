// That each call succeeds with ample memory, and what is answered where a key is there or is not, which no clause says.
// Answers were worked out by hand.
ghost use Rattle.std.specs.Prelude.{◌≡◌, ◌<◌};

use crate::plain::{Entry, all_items, are, empty_tree, key_of};
use qg_disk::{Disk, MemDisk};
use qg_node::{Body, Item};
use qg_num::{Address, BlockFault, Rule};
use std::alloc::Global;
use std::marker::Brand;
use std::process::Abort;
use std::sync::ledger::{Blank, Ledger};
use std::test::Fail;
use tree_setting::Setting;

const SECOND: Entry = Entry {
    number: 2,
    length: 53,
    byte: 2,
};

const FOURTH: Entry = Entry {
    number: 4,
    length: 9,
    byte: 7,
};

const SIXTH: Entry = Entry {
    number: 6,
    length: 1024,
    byte: 6,
};

// A tree of one leaf with these three items.
fn three_items<L: Ledger>(alloc: Global, blank: Blank) -> Result<Setting<MemDisk, L>, BlockFault>
    requires name { blank.name ≡ L.name }
    requires parts { blank.parts ≡ L.parts }
    requires full { 0 < blank.parts }
{
    let mut setting = empty_tree(alloc, MemDisk::new(alloc), 256, blank)?;
    setting.insert(key_of(4), &[4; 53])?;
    setting.insert(key_of(2), &[2; 53])?;
    setting.insert(key_of(6), &[6; 1024])?;
    setting.replace(key_of(4), &[7; 9])?;
    Ok(setting)
}

fn has_body(found: &Option<Body>, wanted: Option<Entry>) -> bool {
    match (found, wanted) {
        (None, None) => true,
        (Some(body), Some(entry)) => entry.has(body),
        _ => false,
    }
}

fn has_item(found: &Option<Item>, wanted: Option<Entry>) -> bool {
    match (found, wanted) {
        (None, None) => true,
        (Some(item), Some(entry)) => entry.is(item),
        _ => false,
    }
}

fn read_each<D: Disk + Drop, L: Ledger>(
    rt: &impl Abort,
    setting: &mut Setting<D, L>,
) -> Result<(), Fail> {
    let bodies = [
        (2, Some(SECOND)),
        (4, Some(FOURTH)),
        (5, None),
        (6, Some(SIXTH)),
    ];
    for (number, wanted) in bodies {
        assert!(rt; has_body(&setting.get(key_of(number))?, wanted), "{number}");
    }
    let items = [
        (1, None),
        (5, Some(FOURTH)),
        (6, Some(SIXTH)),
        (7, Some(SIXTH)),
    ];
    for (number, wanted) in items {
        assert!(rt;
            has_item(&setting.last_to(key_of(number))?, wanted),
            "{number}"
        );
    }
    let some = setting.range(key_of(3), key_of(6))?;
    assert!(rt; are(&some, &[FOURTH, SIXTH]));
    Ok(())
}

fn call_each<L: Ledger>(rt: &impl Abort, alloc: Global, blank: Blank) -> Result<(), Fail>
    requires name { blank.name ≡ L.name }
    requires parts { blank.parts ≡ L.parts }
    requires full { 0 < blank.parts }
{
    let mut setting = three_items::<L>(alloc, blank)?;
    read_each(rt, &mut setting)?;
    setting.remove(key_of(2))?;
    assert!(rt; are(&all_items(&mut setting)?, &[FOURTH, SIXTH]));
    setting.drop_first_leaf()?;
    assert!(rt; all_items(&mut setting)?.is_empty());
    assert!(rt; setting.height() == 0 && setting.used_slots() == 1 && setting.told() == 1);
    Ok(())
}

#[test]
fn each_call_succeeds(rt: HostRuntime) -> Result<(), Fail> {
    call_each::<Brand>(&rt, rt.alloc(), Blank::new(1))
}

// A call whose key is there and must not be, or the other way round.
#[derive(Clone, Copy, Debug)]
enum Ask {
    Insert,
    Replace,
    Remove,
}

// Whether an answer is that the root does not go with what is asked.
fn is_misfit(answer: Result<(), BlockFault>, root: Address) -> bool {
    answer
        == Err(BlockFault::Image {
            rule: Rule::Refs,
            address: root,
        })
}

fn ask_amiss<L: Ledger>(alloc: Global, ask: Ask, blank: Blank) -> Result<bool, BlockFault>
    requires name { blank.name ≡ L.name }
    requires parts { blank.parts ≡ L.parts }
    requires full { 0 < blank.parts }
{
    let mut setting = three_items::<L>(alloc, blank)?;
    let root = setting.root();
    let answer = match ask {
        Ask::Insert => setting.insert(key_of(4), &[1; 53]),
        Ask::Replace => setting.replace(key_of(3), &[1; 53]),
        Ask::Remove => setting.remove(key_of(7)),
    };
    Ok(is_misfit(answer, root))
}

#[test]
fn a_key_that_is_there_or_is_not(rt: HostRuntime) -> Result<(), Fail> {
    for ask in [Ask::Insert, Ask::Replace, Ask::Remove] {
        assert!(rt;
            ask_amiss::<Brand>(rt.alloc(), ask, Blank::new(1))?,
            "{ask:?}"
        );
    }
    Ok(())
}
