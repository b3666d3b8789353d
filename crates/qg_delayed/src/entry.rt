// What waits of one address.
ghost use Rattle.std.specs.Prelude.{◌≡◌, ◌<◌, ◌≤◌, true, None, Some, OnOk, OnErr, if◌then◌else◌, ◌==◌};
ghost use Rattle.qg_refs.specs.Counts.{greatest_count};
ghost use Rattle.qg_delayed.specs.Changes.{change_of};
ghost use Rattle.qg_delayed.specs.Entry.{IsEntry, entry_of, known_in, what_of, with_listed, with_one_more};
ghost use Rattle.qg_delayed.specs.Entry.{with_one_less};

use crate::{Change, Changes, Head};
use qg_items::Reference;
use qg_num::{Generation, NoMemory};
use qg_refs::What;
use std::alloc::Global;

/// What is there now at one address, and which changes of its references wait for a commit (this project's own).
#[derive(Drop)]
pub struct Entry {
    /// The length in bytes of what is there now.
    pub bytes: u64,
    /// The generation in which it was written.
    pub generation: Generation,
    /// How often all its references are there now, together.
    pub total: u64,
    /// The same of those references that are not in the list.
    pub others: u64,
    /// The references that were looked up, each with its count below and its count now.
    pub changes: Changes,
    /// A node's level; none for a data extent.
    pub level: Option<u8>,
    /// The full mark as it is now.
    pub full: bool,
    /// The full mark in the book below.
    pub was_full: bool,
    /// All that is there now came since the last commit: the book below had nothing there, or all of it went.
    pub begun: bool,
}

const _: () = prove!(size_of::<Entry>() <= 64);

impl Entry {
    /// What a book tells of an address that has this, as nothing has changed yet.
    pub(crate) fn of(alloc: Global, head: Option<Head>) -> Entry
        ensures { result ≡ entry_of head }
    {
        let (what, full, total, begun) = match head {
            Some(head) => (head.what, head.full, head.total, false),
            None => (nothing_known(), false, 0, true),
        };
        Entry {
            bytes: what.bytes,
            generation: what.generation,
            total,
            others: total,
            changes: Changes::new(alloc),
            level: what.level,
            full,
            was_full: full,
            begun,
        }
    }

    /// What is known of what is there.
    pub(crate) fn what(&self) -> Option<What>
        ensures { result ≡ known_in self.now }
    {
        if self.total == 0 {
            return None;
        }
        Some(self.what_there())
    }

    /// What it says of what is there.
    pub(crate) fn what_there(&self) -> What
        ensures { result ≡ what_of self.now }
    {
        What {
            bytes: self.bytes,
            level: self.level,
            generation: self.generation,
        }
    }

    /// One more of a reference that has this change. Where memory is refused, nothing changes.
    pub(crate) fn add_one(&mut self, what: What, change: Change) -> Result<(), NoMemory>
        requires listed { change_of change.reference self.old.changes ≡ Some change }
        requires room { change.now < greatest_count change.reference }
        ensures ok { OnOk result (self.new ≡ with_one_more what change self.old) }
        ensures err { OnErr result (self.new ≡ self.old) }
    {
        if self.total == u64::MAX {
            return Err(NoMemory);
        }
        self.changes.replace(Change {
            reference: change.reference,
            below: change.below,
            now: change.now + 1,
        });
        if self.total == 0 {
            self.bytes = what.bytes;
            self.generation = what.generation;
            self.level = what.level;
        }
        self.total += 1;
        Ok(())
    }

    /// Lists a reference that is there so often and has no change. Where memory is refused, nothing changes.
    pub(crate) fn list(&mut self, reference: Reference, count: u32) -> Result<(), NoMemory>
        requires new { change_of reference self.old.changes ≡ None }
        requires within { count ≤ self.old.others }
        ensures ok { OnOk result (self.new ≡ with_listed reference count self.old) }
        ensures err { OnErr result (self.new ≡ self.old) }
    {
        self.changes.put(Change {
            reference,
            below: count,
            now: count,
        })?;
        self.others -= count as u64;
        Ok(())
    }

    /// One less of a reference that has this change. Where none is left of all, the mark is gone.
    pub(crate) fn drop_one(&mut self, change: Change)
        requires listed { change_of change.reference self.old.changes ≡ Some change }
        requires some { 0 < change.now }
        requires total { 0 < self.old.total }
        ensures { self.new ≡ with_one_less change self.old }
    {
        self.changes.replace(Change {
            reference: change.reference,
            below: change.below,
            now: change.now - 1,
        });
        self.total -= 1;
        if self.total == 0 {
            self.begun = true;
            self.full = false;
        }
    }

    /// It is full from now on.
    pub(crate) fn mark(&mut self)
        ensures { self.new ≡ record self.old { full = true } }
    {
        self.full = true;
    }
}

// What stands where nothing is known.
fn nothing_known() -> What
    ensures { result ≡ record { bytes = 0; level = None; generation = 0 } }
{
    What {
        bytes: 0,
        level: None,
        generation: Generation::new(0),
    }
}
