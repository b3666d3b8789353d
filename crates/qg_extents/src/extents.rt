// A book of references in memory.
ghost use Rattle.std.specs.Prelude.{◌≡◌, ◌<◌, ◌≤◌, ◌+◌, ℕ, [], length, map, None, Some, All, IsTrue, IfOk, IsOk, OnOk};
ghost use Rattle.std.specs.Prelude.{OnErr};
ghost use Rattle.std.specs.BTreeMap.{insert_entry};
ghost use Rattle.std.specs.Option.{option_copied};
ghost use Rattle.std.specs.List.{list_all};
ghost use Rattle.std.specs.List.Sorted.{IsStrictlySortedBy};
ghost use Rattle.std.specs.Map.{keys_of};
ghost use Rattle.std.specs.Ordering.{nat_cmp};
ghost use Rattle.qg_node.specs.Fits.{ItemFits};
ghost use Rattle.qg_node.specs.Nodes.{is_ascending};
ghost use Rattle.qg_tree_items.specs.ItemMeaning.{extent_part};
ghost use Rattle.qg_tree_items.specs.Walk.{is_item_of};
ghost use Rattle.qg_tree_items.specs.Types.{Extents as ExtentTree};
ghost use Rattle.qg_refs.specs.Book.{count_at, references_at, full_in, what_in, Adds, Drops, Marks};
ghost use Rattle.qg_refs.specs.Counts.{greatest_count};
ghost use Rattle.qg_extents.specs.Table.{IsPut, IsTable, MayKeep, book_of};
ghost use Rattle.qg_extents.specs.Written.{items_of_book, parts_of_book};

use crate::items::items_of_table;
use crate::kept::{add_to, drop_from};
use qg_disk::Disk;
use qg_node::Items;
use qg_num::{Address, BlockFault, NoMemory, Steps};
use qg_refs::{Kept, RefBook, RefList, Reference, What};
use std::alloc::{AllocError, Global};
use std::collections::BTreeMap;
use std::marker::Model;
use std::sync::ledger::Ledger;

/// The book of references in memory: for each address, in bytes, that has a reference, what is kept there (on-disk
/// format, "backreferences"). A contract sees a table, ascending by address.
#[derive(Drop)]
pub struct Extents {
    alloc: Global,
    table: BTreeMap<u64, Kept>,
}

impl Model for Extents {
    ghost use Rattle.std.specs.Prelude.{List, ℕ};
    ghost use Rattle.qg_refs.specs.declared.kept.Kept.{Kept};
    ghost use Rattle.qg_extents.specs.Table.{IsTable};

    ghost Value = { List (ℕ × Kept) };

    ghost view = { λ extents. extents.table.entries };

    ghost invariant = { λ extents. IsTable extents.table.entries };
}

impl Extents {
    /// No reference yet. It takes no memory.
    pub fn new(alloc: Global) -> Extents
        ensures { result ≡ [] }
    {
        Extents {
            alloc,
            table: BTreeMap::new(alloc),
        }
    }

    /// What is known of what begins at an address: nothing exactly where it has no reference. Land and disk are not
    /// asked, and stay as they are.
    pub fn what<G, D: Disk, L: Ledger>(
        &self,
        land: &mut G,
        disk: &mut D,
        at: Address,
        reads: &mut Steps<L>,
    ) -> Result<Option<What>, BlockFault>
        ensures exact { IfOk result (λ what. what ≡ what_in (book_of self.now at)) }
        ensures ok { IsOk result }
        ensures land { land.new ≡ land.old }
        ensures disk { disk.new ≡ disk.old }
        ensures reads { reads.new ≡ reads.old + 1 }
    {
        reads.tick();
        Ok(self.known(at))
    }

    /// The extent tree's items for what is kept, by address: a record, then its references (on-disk format, EXTENT_ITEM
    /// and what follows it). A sum of counts that doesn't fit 64 bits, of 2^32 references to one address at least, is
    /// answered as want of memory.
    pub fn items(&self, alloc: Global) -> Result<Items, NoMemory>
        ensures exact { IfOk result (λ items. items ≡ items_of_book self.now) }
        ensures told { IfOk result (λ items. map extent_part items ≡ map (λ part. Some part) (parts_of_book self.now)) }
        ensures allowed { IfOk result (λ items. (generation : ℕ)
            → All (λ entry. entry.1.what.generation ≤ generation) self.now
            → IsTrue (list_all (is_item_of ExtentTree generation) items)) }
        ensures ascending { IfOk result (λ items. IsTrue (is_ascending (map (λ item. item.key) items))) }
        ensures short { IfOk result (λ items. All (λ item. length item.body ≤ 1024) items) }
        ensures fit { IfOk result (λ items. All ItemFits items) }
    {
        Ok(items_of_table(alloc, &self.table)?)
    }

    /// At how many addresses something has a reference.
    pub fn len(&self) -> usize
        ensures count { result ≡ length self.now }
        ensures table { IsTable self.now }
    {
        self.table.len()
    }

    /// The allocator from which it takes its memory.
    pub fn allocator(&self) -> Global {
        self.alloc
    }

    /// What is known of what begins at an address.
    pub fn known(&self, at: Address) -> Option<What>
        ensures { result ≡ what_in (book_of self.now at) }
    {
        match self.kept(at) {
            Some(kept) => Some(kept.what),
            None => None,
        }
    }

    // The references to what begins at an address.
    pub(crate) fn references(&self, alloc: Global, at: Address) -> Result<RefList, NoMemory>
        ensures { IfOk result (λ list. list ≡ references_at (book_of self.now) at) }
    {
        match self.kept(at) {
            Some(kept) => kept.references.copy(alloc),
            None => Ok(RefList::new(alloc)),
        }
    }

    /// How many different references there are to what begins at an address; a node has each of its references once.
    pub fn how_many(&self, at: Address) -> usize
        ensures { result ≡ length (references_at (book_of self.now) at) }
    {
        match self.kept(at) {
            Some(kept) => kept.references.len(),
            None => 0,
        }
    }

    /// How often a reference is there.
    pub fn count_one(&self, at: Address, reference: &Reference) -> u32
        ensures { result ≡ count_at (book_of self.now) at reference.now }
    {
        match self.kept(at) {
            Some(kept) => kept.references.count(reference),
            None => 0,
        }
    }

    /// Whether what begins at an address is full.
    pub fn is_marked(&self, at: Address) -> bool
        ensures { result ≡ full_in (book_of self.now at) }
    {
        match self.kept(at) {
            Some(kept) => kept.full,
            None => false,
        }
    }

    /// What is kept at an address.
    pub fn kept(&self, at: Address) -> Option<&Kept>
        ensures { option_copied result ≡ book_of self.now at }
    {
        self.table.get(&at.value())
    }

    /// All that is kept, by address.
    pub fn table(&self) -> &BTreeMap<u64, Kept>
        ensures same { result.now.entries ≡ self.now }
        ensures table { IsTable self.now }
    {
        &self.table
    }

    /// One reference more at an address. What is told of it is kept where it has no reference yet.
    pub fn add_one(&mut self, at: Address, what: What, reference: Reference) -> Result<(), NoMemory>
        requires { count_at (book_of self.old) at reference < greatest_count reference }
        ensures ok { OnOk result (Adds (book_of self.old) (book_of self.new) at what reference) }
        ensures err { OnErr result (self.new ≡ self.old) }
    {
        if let Some(kept) = self.table.get_mut(&at.value()) {
            add_to(kept, reference)?;
            return Ok(());
        }
        let mut references = RefList::new(self.alloc);
        references.add(reference)?;
        let _ascending = references.as_slice();
        self.table.insert(
            at.value(),
            Kept {
                what,
                full: false,
                references,
            },
        )?;
        Ok(())
    }

    // Puts what is kept at an address, in the place of what was there.
    pub(crate) fn put(&mut self, at: Address, kept: Kept) -> Result<(), NoMemory>
        requires { MayKeep (Some kept) }
        ensures { OnOk result (IsPut (book_of self.old) (book_of self.new) at (Some kept)) }
    {
        self.table.insert(at.value(), kept)?;
        Ok(())
    }

    /// One reference less at an address. Where it was the last one, nothing is kept of what is there.
    pub fn drop_at(&mut self, at: Address, reference: &Reference)
        requires { 0 < count_at (book_of self.old) at reference.now }
        ensures { Drops (book_of self.old) (book_of self.new) at reference.now }
    {
        let Some(kept) = self.table.get_mut(&at.value()) else {
            unreachable!();
        };
        if drop_from(kept, reference) {
            forget(&mut self.table, at);
        }
    }

    /// What is at an address is full from now on.
    pub fn mark(&mut self, at: Address)
        requires { 0 < length (references_at (book_of self.old) at) }
        ensures { Marks (book_of self.old) (book_of self.new) at }
    {
        let Some(kept) = self.table.get_mut(&at.value()) else {
            unreachable!();
        };
        kept.full = true;
    }
}

impl Clone for Extents {
    ghost is_clone = { λ book copy. copy ≡ book };

    fn clone(&self) -> Result<Extents, AllocError> {
        Ok(Extents {
            alloc: self.alloc,
            table: self.table.clone()?,
        })
    }
}

// Nothing is kept at an address from now on.
fn forget(table: &mut BTreeMap<u64, Kept>, at: Address)
    ensures gone { IsPut (book_of table.old.entries) (book_of table.new.entries) at None }
    ensures ascend { IsStrictlySortedBy nat_cmp (keys_of table.new.entries) }
{
    table.remove(&at.value());
}
