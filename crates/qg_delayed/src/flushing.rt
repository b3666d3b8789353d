// A commit makes all changes in the book below.
ghost use Rattle.std.specs.Prelude.{◌≡◌, ◌≤◌, ◌⊎◌, ◌&&◌, ◌||◌, not, [], Some, IsSome, IfErr, OnErr, OnOk};
ghost use Rattle.qg_device.specs.Cause.{HasCause};
ghost use Rattle.qg_refs.specs.Book.{Book, Turns};
ghost use Rattle.qg_delayed.specs.Flushing.{IsFlushed, edits_at, edits_of, mark_comes, references_turn};
ghost use Rattle.qg_delayed.specs.LookUps.{Unwritten};
ghost use Rattle.qg_delayed.specs.Making.{CanMake, HasMade, HasRoomFor, LeftByEdits};
ghost use Rattle.qg_delayed.specs.Merged.{Fits};

use crate::making::{has_new_mark, make, make_comes, make_goes};
use crate::{Delayed, Edit, Entry, RecordBook};
use qg_disk::Disk;
use qg_num::{Address, BlockFault, Steps};
use std::collections::BTreeMap;
use std::sync::ledger::Ledger;

impl Delayed {
    /// Makes all changes in the book below, addresses ascending. After `Ok` nothing waits. After `Err` all waits as
    /// before, and some of it may have been made.
    pub fn flush<G, D: Disk, L: Ledger, B: RecordBook<G, D, L>>(
        &mut self,
        land: &mut G,
        disk: &mut D,
        book: &mut B,
        reads: &mut Steps<L>,
    ) -> Result<(), BlockFault>
        requires stands { B.stands book.old land.old disk.old }
        requires fits { (below : Book) → B.holds book.old land.old disk.old ≡ Some below → Fits below self.old }
        requires room { HasRoomFor B.stands B.holds B.has_room B.edits (edits_of self.old)
            book.old land.old disk.old }
        ensures flushed { OnOk result (Turns (λ below after. IsFlushed below after self.old)
            (B.holds book.old land.old disk.old) (B.holds book.new land.new disk.new)) }
        ensures none { OnOk result (self.new ≡ []) }
        ensures err { OnErr result (self.new ≡ self.old) }
        ensures stands { B.stands book.new land.new disk.new }
        ensures leaves { LeftByEdits B.edits land.old disk.old land.new disk.new }
        ensures unwritten { Unwritten D.history D.size disk.old disk.new }
        ensures no_image { IsSome (B.holds book.old land.old disk.old)
            → IfErr result (λ fault. (fault ≡ BlockFault.NoMemory) ⊎ (fault ≡ BlockFault.Disk)) }
        ensures cause { HasCause BlockFault.Disk (D.faults disk.old) (D.faults disk.new) result }
        ensures rise { reads.old ≤ reads.new }
    {
        make_entries(land, disk, &self.entries, book, reads)?;
        self.entries = BTreeMap::new(self.alloc);
        Ok(())
    }
}

// Makes the changes of all entries, addresses ascending.
fn make_entries<G, D: Disk, L: Ledger, B: RecordBook<G, D, L>>(
    land: &mut G,
    disk: &mut D,
    entries: &BTreeMap<u64, Entry>,
    book: &mut B,
    reads: &mut Steps<L>,
) -> Result<(), BlockFault>
    requires { CanMake B.stands B.holds B.has_room B.edits (edits_of entries.now.entries)
        book.old land.old disk.old }
    ensures made { OnOk result (HasMade B.stands B.holds B.has_room B.edits (edits_of entries.now.entries)
        book.old land.old disk.old book.new land.new disk.new) }
    ensures stands { B.stands book.new land.new disk.new }
    ensures leaves { LeftByEdits B.edits land.old disk.old land.new disk.new }
    ensures unwritten { Unwritten D.history D.size disk.old disk.new }
    ensures no_image { IsSome (B.holds book.old land.old disk.old)
        → IfErr result (λ fault. (fault ≡ BlockFault.NoMemory) ⊎ (fault ≡ BlockFault.Disk)) }
    ensures cause { HasCause BlockFault.Disk (D.faults disk.old) (D.faults disk.new) result }
    ensures rise { reads.old ≤ reads.new }
{
    for (at, entry) in entries.iter() {
        make_entry(land, disk, Address::new(*at), entry, book, reads)?;
    }
    Ok(())
}

// Makes the changes of one entry.
fn make_entry<G, D: Disk, L: Ledger, B: RecordBook<G, D, L>>(
    land: &mut G,
    disk: &mut D,
    at: Address,
    entry: &Entry,
    book: &mut B,
    reads: &mut Steps<L>,
) -> Result<(), BlockFault>
    requires { CanMake B.stands B.holds B.has_room B.edits (edits_at at entry.now)
        book.old land.old disk.old }
    ensures made { OnOk result (HasMade B.stands B.holds B.has_room B.edits (edits_at at entry.now)
        book.old land.old disk.old book.new land.new disk.new) }
    ensures stands { B.stands book.new land.new disk.new }
    ensures leaves { LeftByEdits B.edits land.old disk.old land.new disk.new }
    ensures unwritten { Unwritten D.history D.size disk.old disk.new }
    ensures no_image { IsSome (B.holds book.old land.old disk.old)
        → IfErr result (λ fault. (fault ≡ BlockFault.NoMemory) ⊎ (fault ≡ BlockFault.Disk)) }
    ensures cause { HasCause BlockFault.Disk (D.faults disk.old) (D.faults disk.new) result }
    ensures rise { reads.old ≤ reads.new }
{
    make_references(land, disk, at, entry, book, reads)?;
    make_mark(land, disk, at, entry, book, reads)
}

// Makes what comes and what goes. What comes is first, but where all that is there came since the last commit.
fn make_references<G, D: Disk, L: Ledger, B: RecordBook<G, D, L>>(
    land: &mut G,
    disk: &mut D,
    at: Address,
    entry: &Entry,
    book: &mut B,
    reads: &mut Steps<L>,
) -> Result<(), BlockFault>
    requires { CanMake B.stands B.holds B.has_room B.edits (references_turn at entry.now)
        book.old land.old disk.old }
    ensures made { OnOk result (HasMade B.stands B.holds B.has_room B.edits (references_turn at entry.now)
        book.old land.old disk.old book.new land.new disk.new) }
    ensures stands { B.stands book.new land.new disk.new }
    ensures leaves { LeftByEdits B.edits land.old disk.old land.new disk.new }
    ensures unwritten { Unwritten D.history D.size disk.old disk.new }
    ensures no_image { IsSome (B.holds book.old land.old disk.old)
        → IfErr result (λ fault. (fault ≡ BlockFault.NoMemory) ⊎ (fault ≡ BlockFault.Disk)) }
    ensures cause { HasCause BlockFault.Disk (D.faults disk.old) (D.faults disk.new) result }
    ensures rise { reads.old ≤ reads.new }
{
    let goes_first = entry.begun;
    if goes_first {
        make_goes(land, disk, at, entry, book, reads)?;
        return make_comes(land, disk, at, entry, book, reads);
    }
    make_comes(land, disk, at, entry, book, reads)?;
    make_goes(land, disk, at, entry, book, reads)
}

// Makes the mark, where the record doesn't have it by then.
fn make_mark<G, D: Disk, L: Ledger, B: RecordBook<G, D, L>>(
    land: &mut G,
    disk: &mut D,
    at: Address,
    entry: &Entry,
    book: &mut B,
    reads: &mut Steps<L>,
) -> Result<(), BlockFault>
    requires { CanMake B.stands B.holds B.has_room B.edits (mark_comes at entry.now)
        book.old land.old disk.old }
    ensures made { OnOk result (HasMade B.stands B.holds B.has_room B.edits (mark_comes at entry.now)
        book.old land.old disk.old book.new land.new disk.new) }
    ensures stands { B.stands book.new land.new disk.new }
    ensures leaves { LeftByEdits B.edits land.old disk.old land.new disk.new }
    ensures unwritten { Unwritten D.history D.size disk.old disk.new }
    ensures no_image { IsSome (B.holds book.old land.old disk.old)
        → IfErr result (λ fault. (fault ≡ BlockFault.NoMemory) ⊎ (fault ≡ BlockFault.Disk)) }
    ensures cause { HasCause BlockFault.Disk (D.faults disk.old) (D.faults disk.new) result }
    ensures rise { reads.old ≤ reads.new }
{
    if !has_new_mark(entry) {
        return Ok(());
    }
    make(land, disk, &Edit::SetFull { at }, book, reads)
}
