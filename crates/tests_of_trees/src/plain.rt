// A plain sorted list, which says what a tree holds that was edited as the list was.
ghost use Rattle.std.specs.Prelude.{◌≡◌, ◌≤◌, ◌<◌, length};
ghost use Rattle.qg_blocks.specs.NodesInMemory.{most_clean};

use qg_disk::Disk;
use qg_node::{Body, Item, Items};
use qg_num::{BlockFault, Key};
use std::alloc::{AllocError, Global};
use std::sync::ledger::{Blank, Ledger};
use tree_setting::Setting;

/// The bytes that an item takes of a leaf beside its body.
const ITEM_BYTES: u64 = 25;

/// The key with a number.
pub(crate) fn key_of(number: u64) -> Key {
    Key {
        objectid: number,
        kind: 1,
        offset: 0,
    }
}

/// An item: the number of its key, and how many bytes of one kind its body has.
#[derive(Clone, Copy, Debug, PartialEq, Eq)]
pub(crate) struct Entry {
    pub number: u64,
    pub length: usize,
    pub byte: u8,
}

impl Entry {
    /// Whether an item is this one.
    pub(crate) fn is(&self, item: &Item) -> bool {
        item.key == key_of(self.number) && self.has(&item.body)
    }

    /// Whether a body is this one's.
    pub(crate) fn has(&self, body: &Body) -> bool {
        body.len() == self.length && body.as_slice().iter().all(|byte| *byte == self.byte)
    }
}

/// A sorted list.
#[derive(Drop)]
pub(crate) struct Plain {
    pub entries: Vec<Entry>,
}

impl Plain {
    pub(crate) fn new(alloc: Global) -> Plain {
        Plain {
            entries: Vec::new(alloc),
        }
    }

    // How many items have a lesser number.
    fn place_of(&self, number: u64) -> usize
        ensures { result ≤ length self.now.entries.items }
    {
        self.entries.partition_point(|entry| entry.number < number)
    }

    /// Whether there is an item with a number.
    pub(crate) fn has(&self, number: u64) -> bool {
        let place = self.place_of(number);
        place < self.entries.len() && self.entries[place].number == number
    }

    /// Puts an item in, in the place of the one with its number, if there is one.
    pub(crate) fn put(&mut self, entry: Entry) -> Result<(), AllocError> {
        let place = self.place_of(entry.number);
        if place < self.entries.len() && self.entries[place].number == entry.number {
            self.entries[place] = entry;
            return Ok(());
        }
        Ok(self.entries.insert(place, entry)?)
    }

    /// Takes out the item with a number, which is there.
    pub(crate) fn take(&mut self, number: u64) {
        let place = self.place_of(number);
        if place < self.entries.len() {
            self.entries.remove(place);
        }
    }

    /// Takes out the first so many items.
    pub(crate) fn drop_first(&mut self, count: usize) {
        let count = count.min(self.entries.len());
        self.entries.drain(..count);
    }

    /// What all items take of leaves, in bytes.
    pub(crate) fn bytes(&self) -> u64 {
        bytes_of(&self.entries)
    }
}

/// What items take of leaves, in bytes.
pub(crate) fn bytes_of(entries: &[Entry]) -> u64 {
    let mut bytes = 0u64;
    for entry in entries {
        bytes = bytes.saturating_add(ITEM_BYTES.saturating_add(entry.length as u64));
    }
    bytes
}

/// Whether items are these.
pub(crate) fn are(items: &Items, entries: &[Entry]) -> bool {
    items.len() == entries.len()
        && items
            .as_slice()
            .iter()
            .zip(entries)
            .all(|(item, entry)| entry.is(item))
}

/// All items of a tree.
pub(crate) fn all_items<D: Disk + Drop, L: Ledger>(
    setting: &mut Setting<D, L>,
) -> Result<Items, BlockFault> {
    setting.range(key_of(0), key_of(u64::MAX))
}

/// Puts an item into the tree and into the list: in the place of the one with its number, if there is one.
pub(crate) fn put<D: Disk + Drop, L: Ledger>(
    setting: &mut Setting<D, L>,
    plain: &mut Plain,
    entry: Entry,
) -> Result<(), BlockFault> {
    let bytes = [entry.byte; 1024];
    let body = &bytes[..entry.length.min(1024)];
    if plain.has(entry.number) {
        setting.replace(key_of(entry.number), body)?;
    } else {
        setting.insert(key_of(entry.number), body)?;
    }
    Ok(plain.put(entry)?)
}

/// Takes an item out of both, if there is one with that number.
pub(crate) fn take<D: Disk + Drop, L: Ledger>(
    setting: &mut Setting<D, L>,
    plain: &mut Plain,
    number: u64,
) -> Result<(), BlockFault> {
    if plain.has(number) {
        setting.remove(key_of(number))?;
        plain.take(number);
    }
    Ok(())
}

/// How many slots of 4096 bytes there are.
const SLOTS: u64 = 1024;

/// A tree of one empty leaf of 4096 bytes, with room for so many clean nodes in memory.
#[tactic(auto, unfolding(qg_super::specs::Places::is_served))]
pub(crate) fn empty_tree<D: Disk + Drop, L: Ledger>(
    alloc: Global,
    disk: D,
    bound: usize,
    blank: Blank,
) -> Result<Setting<D, L>, BlockFault>
    requires some { 1 ≤ bound }
    requires most { bound ≤ most_clean }
    requires name { blank.name ≡ L.name }
    requires parts { blank.parts ≡ L.parts }
    requires full { 0 < blank.parts }
{
    Setting::new(alloc, disk, 4096, SLOTS, bound, blank)
}
