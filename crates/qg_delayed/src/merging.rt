// The references to an address with the changes made.
ghost use Rattle.std.specs.Prelude.{◌≡◌, ◌+◌, ◌<◌, ◌≤◌, ◌⊎◌, None, Some, IsSome, IfErr, IfOk, OnOk};
ghost use Rattle.qg_device.specs.Cause.{HasCause};
ghost use Rattle.qg_items.specs.declared.extent.Reference.{Reference};
ghost use Rattle.qg_refs.specs.Book.{Book, full_in, references_at};
ghost use Rattle.qg_refs.specs.Counts.{HasSoManyMore, IsRefList, count_of};
ghost use Rattle.qg_delayed.specs.Changes.{ChangesAscend, change_of};
ghost use Rattle.qg_delayed.specs.LookUps.{LooksNothingUp, LooksUp};
ghost use Rattle.qg_delayed.specs.Merged.{Fits, Knows, left_as, merged, now_in, now_or, with_changes};

use crate::{Change, Changes, Delayed, RecordBook};
use qg_disk::Disk;
use qg_num::{Address, BlockFault, NoMemory, Steps};
use qg_refs::{Counted, RefList};
use std::alloc::Global;
use std::sync::ledger::Ledger;

impl Delayed {
    /// The references to any address, known or not: those of the book below, with the changes made.
    pub fn merged<G, D: Disk, L: Ledger, B: RecordBook<G, D, L>>(
        &self,
        land: &mut G,
        disk: &mut D,
        at: Address,
        book: &B,
        reads: &mut Steps<L>,
    ) -> Result<RefList, BlockFault>
        requires { B.stands book.now land.old disk.old }
        ensures exact { (below : Book) → B.holds book.now land.old disk.old ≡ Some below → Fits below self.now
            → IfOk result (λ list. list ≡ references_at (merged below self.now) at) }
        ensures leaves { LooksUp (B.stands book.now) (B.holds book.now) B.looks D.history D.size
            land.old disk.old land.new disk.new }
        ensures no_image { IsSome (B.holds book.now land.old disk.old)
            → IfErr result (λ fault. (fault ≡ BlockFault.NoMemory) ⊎ (fault ≡ BlockFault.Disk)) }
        ensures cause { HasCause BlockFault.Disk (D.faults disk.old) (D.faults disk.new) result }
        ensures rise { reads.old ≤ reads.new }
        ensures reads { IsSome (B.holds book.now land.old disk.old)
            → reads.new ≤ reads.old + (44 + B.to_read book.now land.old disk.old at) }
    {
        let below = book.refs_of(self.alloc, land, disk, at, reads)?;
        Ok(self.merge(at, below)?)
    }

    /// Whether any address, known or not, is full with the changes made. Of one that is known the book below isn't
    /// asked.
    pub fn is_full<G, D: Disk, L: Ledger, B: RecordBook<G, D, L>>(
        &self,
        land: &mut G,
        disk: &mut D,
        at: Address,
        book: &B,
        reads: &mut Steps<L>,
    ) -> Result<bool, BlockFault>
        requires { B.stands book.now land.old disk.old }
        ensures exact { (below : Book) → B.holds book.now land.old disk.old ≡ Some below → Fits below self.now
            → IfOk result (λ full. full ≡ full_in (merged below self.now at)) }
        ensures once { Knows self.now at → LooksNothingUp result self.now self.now land.old land.new
            disk.old disk.new reads.old reads.new }
        ensures leaves { LooksUp (B.stands book.now) (B.holds book.now) B.looks D.history D.size
            land.old disk.old land.new disk.new }
        ensures no_image { IsSome (B.holds book.now land.old disk.old)
            → IfErr result (λ fault. (fault ≡ BlockFault.NoMemory) ⊎ (fault ≡ BlockFault.Disk)) }
        ensures cause { HasCause BlockFault.Disk (D.faults disk.old) (D.faults disk.new) result }
        ensures rise { reads.old ≤ reads.new }
        ensures reads { IsSome (B.holds book.now land.old disk.old)
            → reads.new ≤ reads.old + (44 + B.to_read book.now land.old disk.old at) }
    {
        match self.entries.get(&at.value()) {
            Some(entry) => Ok(entry.full),
            None => book.is_full(land, disk, at, reads),
        }
    }

    // The same of what the book below has there.
    fn merge(&self, at: Address, below: RefList) -> Result<RefList, NoMemory>
        ensures { (book : Book) → below ≡ references_at book at → Fits book self.now
            → IfOk result (λ list. list ≡ references_at (merged book self.now) at) }
    {
        match self.entries.get(&at.value()) {
            Some(entry) => with_changes(self.alloc, below.as_slice(), &entry.changes),
            None => Ok(below),
        }
    }
}

// References with each that is changed so often as it is there now.
fn with_changes(alloc: Global, below: &[Counted], changes: &Changes) -> Result<RefList, NoMemory>
    requires { IsRefList below.now }
    ensures { IfOk result (λ list. list ≡ with_changes changes.now below.now) }
{
    let mut list = changed(alloc, changes.as_slice())?;
    put_unchanged(&mut list, below, changes)?;
    let _ascending = list.as_slice();
    Ok(list)
}

// The references that have a change, so often as they are there now.
fn changed(alloc: Global, changes: &[Change]) -> Result<RefList, NoMemory>
    requires { ChangesAscend changes.now }
    ensures { IfOk result (λ list. (x : Reference) → count_of list x ≡ now_in (change_of x changes.now)) }
{
    let mut list = RefList::new(alloc);
    for change in changes {
        put_count(
            &mut list,
            Counted {
                reference: change.reference,
                count: change.now,
            },
        )?;
    }
    Ok(list)
}

// Puts the references that have no change, so often as they are there.
fn put_unchanged(list: &mut RefList, below: &[Counted], changes: &Changes) -> Result<(), NoMemory>
    requires sound { IsRefList below.now }
    requires changed { (x : Reference) → count_of list.old x ≡ now_in (change_of x changes.now) }
    ensures { OnOk result ((x : Reference)
        → count_of list.new x ≡ now_or (count_of below.now x) (change_of x changes.now)) }
{
    for counted in below {
        let count = left_as(changes, counted);
        put_count(
            list,
            Counted {
                reference: counted.reference,
                count,
            },
        )?;
    }
    Ok(())
}

// How often a reference is there that has no change; 0 where it has one.
fn left_as(changes: &Changes, counted: &Counted) -> u32
    ensures { result ≡ left_as changes.now counted.now }
{
    match changes.get(&counted.reference) {
        Some(_) => 0,
        None => counted.count,
    }
}

// Puts a reference that is not there so often; not at all where it is there 0 times.
fn put_count(list: &mut RefList, counted: Counted) -> Result<(), NoMemory>
    requires { 0 < counted.count → count_of list.old counted.reference ≡ 0 }
    ensures { OnOk result (HasSoManyMore list.old list.new counted.reference counted.count) }
{
    if counted.count == 0 {
        return Ok(());
    }
    list.put(counted.reference, counted.count)?;
    Ok(())
}
