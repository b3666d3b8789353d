// Changes of a book of references, by address.
ghost use Rattle.std.specs.Prelude.{◌≡◌, ◌<◌, ◌≢◌, [], ℕ, Some, IsSome, OnOk, OnErr};
ghost use Rattle.qg_refs.specs.Book.{Book, Adds, Drops, Marks, count_at, full_in, references_at, what_in};
ghost use Rattle.qg_refs.specs.Counts.{greatest_count};
ghost use Rattle.qg_delayed.specs.Below.{total_of};
ghost use Rattle.qg_delayed.specs.Entry.{IsEntry, entry_at};
ghost use Rattle.qg_delayed.specs.Merged.{Edits, Fits, Knows, KnowsReference, count_now, merged, total_now};

use crate::Entry;
use qg_items::Reference;
use qg_num::{Address, NoMemory};
use qg_refs::What;
use std::alloc::Global;
use std::collections::BTreeMap;
use std::marker::Model;

/// Changes of a book of references that wait for a commit (this project's own). A contract sees the address of each
/// entry with it, ascending.
#[derive(Drop)]
pub struct Delayed {
    pub(crate) alloc: Global,
    pub(crate) entries: BTreeMap<u64, Entry>,
}

impl Model for Delayed {
    ghost use Rattle.std.specs.Prelude.{List, ℕ};
    ghost use Rattle.qg_delayed.specs.declared.entry.Entry.{Entry};
    ghost use Rattle.qg_delayed.specs.Entry.{AreEntries};

    ghost Value = { List (ℕ × Entry) };

    ghost view = { λ delayed. delayed.entries.entries };

    ghost invariant = { λ delayed. AreEntries delayed.entries.entries };
}

impl Delayed {
    /// Nothing is known and nothing waits. It takes no memory.
    pub fn new(alloc: Global) -> Delayed
        ensures { result ≡ [] }
    {
        Delayed {
            alloc,
            entries: BTreeMap::new(alloc),
        }
    }

    /// What is known of what is there now.
    pub fn what_now(&self, at: Address) -> Option<What>
        requires { Knows self.now at }
        ensures { (below : Book) → Fits below self.now → result ≡ what_in (merged below self.now at) }
    {
        self.entry(at).what()
    }

    /// How often all references to it are there now.
    pub fn total_now(&self, at: Address) -> u64
        requires { Knows self.now at }
        ensures now { result ≡ total_now self.now at }
        ensures merged { (below : Book) → Fits below self.now
            → result ≡ total_of (references_at (merged below self.now) at) }
    {
        self.entry(at).total
    }

    /// Whether it is full now.
    pub fn is_full_now(&self, at: Address) -> bool
        requires { Knows self.now at }
        ensures { (below : Book) → Fits below self.now → result ≡ full_in (merged below self.now at) }
    {
        self.entry(at).full
    }

    /// How often a reference to it is there now.
    pub fn count_now(&self, at: Address, reference: &Reference) -> u32
        requires { KnowsReference self.now at reference.now }
        ensures now { result ≡ count_now self.now at reference.now }
        ensures merged { (below : Book) → Fits below self.now
            → result ≡ count_at (merged below self.now) at reference.now }
    {
        match self.entry(at).changes.get(reference) {
            Some(change) => change.now,
            None => 0,
        }
    }

    // The entry of an address that is known.
    pub(crate) fn entry(&self, at: Address) -> &Entry
        requires { Knows self.now at }
        ensures found { entry_at self.now at ≡ Some result.now }
        ensures sound { IsEntry result.now }
    {
        let Some(entry) = self.entries.get(&at.value()) else {
            unreachable!();
        };
        entry
    }

    /// One reference more. What is told of what is there is kept where nothing was. A total that doesn't fit 64 bits is
    /// answered as want of memory.
    pub fn add(&mut self, at: Address, what: What, reference: Reference) -> Result<(), NoMemory>
        requires known { KnowsReference self.old at reference }
        requires room { count_now self.old at reference < greatest_count reference }
        ensures ok { OnOk result (Edits (λ old new. Adds old new at what reference) self.old self.new) }
        ensures err { OnErr result (self.new ≡ self.old) }
    {
        let Some(entry) = self.entries.get_mut(&at.value()) else {
            unreachable!();
        };
        let Some(change) = entry.changes.get(&reference) else {
            unreachable!();
        };
        entry.add_one(what, change)?;
        Ok(())
    }

    /// One reference less. Where it was the last of all, nothing is known of what is there, and the mark is gone.
    pub fn drop_one(&mut self, at: Address, reference: &Reference)
        requires known { KnowsReference self.old at reference.now }
        requires there { 0 < count_now self.old at reference.now }
        ensures { Edits (λ old new. Drops old new at reference.now) self.old self.new }
    {
        let Some(entry) = self.entries.get_mut(&at.value()) else {
            unreachable!();
        };
        let Some(change) = entry.changes.get(reference) else {
            unreachable!();
        };
        entry.drop_one(change);
    }

    /// What is there is full from now on.
    pub fn set_full(&mut self, at: Address)
        requires known { Knows self.old at }
        requires there { 0 < total_now self.old at }
        ensures { Edits (λ old new. Marks old new at) self.old self.new }
    {
        let Some(entry) = self.entries.get_mut(&at.value()) else {
            unreachable!();
        };
        entry.mark();
    }
}
