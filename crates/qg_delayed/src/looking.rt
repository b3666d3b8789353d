// Looking up in the book below.
ghost use Rattle.std.specs.Prelude.{◌≡◌, ◌+◌, ◌<◌, ◌≤◌, ◌⊎◌, None, Some, IsSome, OnOk, OnErr, IfErr, IsErrOf, IsTrue};
ghost use Rattle.std.specs.Prelude.{◌↔◌, IfOk};
ghost use Rattle.qg_num.specs.declared.fault.BlockFault.TheVariants.{Image};
ghost use Rattle.qg_num.specs.declared.rule.Rule.TheVariants.{Refs};
ghost use Rattle.qg_device.specs.Cause.{HasCause};
ghost use Rattle.qg_refs.specs.Book.{Book, count_at};
ghost use Rattle.qg_delayed.specs.Entry.{entry_at};
ghost use Rattle.qg_delayed.specs.LookUps.{LooksNothingUp, LooksUp, ReadsNothing};
ghost use Rattle.qg_delayed.specs.Merged.{Fits, Knows, KnowsAll, KnowsReference, Learns, TakesFirst, TakesListed};
ghost use Rattle.qg_delayed.specs.Merged.{change_at, others_at};
ghost use Rattle.qg_delayed.specs.Below.{HasTotal};

use crate::{Delayed, Entry, Head, RecordBook};
use qg_disk::Disk;
use qg_items::Reference;
use qg_num::{Address, BlockFault, Rule, Steps};
use std::sync::ledger::Ledger;

impl Delayed {
    /// Keeps what the book below tells of an address, unless it is known. `Image` comes with `refs` and the address
    /// where it tells something that has no reference.
    pub fn look_up<G, D: Disk, L: Ledger, B: RecordBook<G, D, L>>(
        &mut self,
        land: &mut G,
        disk: &mut D,
        at: Address,
        book: &B,
        reads: &mut Steps<L>,
    ) -> Result<(), BlockFault>
        requires { B.stands book.now land.old disk.old }
        ensures known { OnOk result (Knows self.new at) }
        ensures once { Knows self.old at → LooksNothingUp result self.old self.new land.old land.new
            disk.old disk.new reads.old reads.new }
        ensures learns { Learns self.old self.new at }
        ensures told { (below : Book) → B.holds book.now land.old disk.old ≡ Some below → Fits below self.old
            → Fits below self.new }
        ensures leaves { LooksUp (B.stands book.now) (B.holds book.now) B.looks D.history D.size
            land.old disk.old land.new disk.new }
        ensures no_image { (below : Book) → B.holds book.now land.old disk.old ≡ Some below → Fits below self.old
            → IfErr result (λ fault. (fault ≡ BlockFault.NoMemory) ⊎ (fault ≡ BlockFault.Disk)) }
        ensures cause { HasCause BlockFault.Disk (D.faults disk.old) (D.faults disk.new) result }
        ensures rise { reads.old ≤ reads.new }
        ensures reads { IsSome (B.holds book.now land.old disk.old)
            → reads.new ≤ reads.old + (44 + B.to_read book.now land.old disk.old at) }
    {
        if self.entries.contains_key(&at.value()) {
            return Ok(());
        }
        let head = book.head(land, disk, at, reads)?;
        self.keep(at, head)?;
        Ok(())
    }

    /// Keeps how often the book below has a reference to an address that is known, unless that is known. `Image` comes
    /// with `refs` and the address where that doesn't agree with what it told before.
    pub fn look_up_reference<G, D: Disk, L: Ledger, B: RecordBook<G, D, L>>(
        &mut self,
        land: &mut G,
        disk: &mut D,
        at: Address,
        reference: Reference,
        book: &B,
        reads: &mut Steps<L>,
    ) -> Result<(), BlockFault>
        requires stands { B.stands book.now land.old disk.old }
        requires at { Knows self.old at }
        ensures known { OnOk result (KnowsReference self.new at reference) }
        ensures once { KnowsReference self.old at reference → LooksNothingUp result self.old self.new land.old land.new
            disk.old disk.new reads.old reads.new }
        ensures rests { KnowsAll self.old at → ReadsNothing land.old land.new disk.old disk.new reads.old reads.new }
        ensures learns { Learns self.old self.new at }
        ensures told { (below : Book) → B.holds book.now land.old disk.old ≡ Some below → Fits below self.old
            → Fits below self.new }
        ensures leaves { LooksUp (B.stands book.now) (B.holds book.now) B.looks D.history D.size
            land.old disk.old land.new disk.new }
        ensures no_image { (below : Book) → B.holds book.now land.old disk.old ≡ Some below → Fits below self.old
            → IfErr result (λ fault. (fault ≡ BlockFault.NoMemory) ⊎ (fault ≡ BlockFault.Disk)) }
        ensures cause { HasCause BlockFault.Disk (D.faults disk.old) (D.faults disk.new) result }
        ensures rise { reads.old ≤ reads.new }
        ensures reads { IsSome (B.holds book.now land.old disk.old)
            → reads.new ≤ reads.old + (44 + B.to_read book.now land.old disk.old at) }
    {
        if self.entry(at).changes.get(&reference).is_some() {
            return Ok(());
        }
        let count = self.count_below(land, disk, at, reference, book, reads)?;
        self.list(at, reference, count)?;
        Ok(())
    }

    // How often the book below has a reference to an address that is known, which is not in the list. Where all are in
    // the list it has it not at all, and nothing is looked up.
    fn count_below<G, D: Disk, L: Ledger, B: RecordBook<G, D, L>>(
        &self,
        land: &mut G,
        disk: &mut D,
        at: Address,
        reference: Reference,
        book: &B,
        reads: &mut Steps<L>,
    ) -> Result<u32, BlockFault>
        requires stands { B.stands book.now land.old disk.old }
        requires at { Knows self.now at }
        requires new { change_at self.now at reference ≡ None }
        ensures exact { (below : Book) → B.holds book.now land.old disk.old ≡ Some below → Fits below self.now
            → IfOk result (λ count. count ≡ count_at below at reference) }
        ensures rests { KnowsAll self.now at → ReadsNothing land.old land.new disk.old disk.new reads.old reads.new }
        ensures leaves { LooksUp (B.stands book.now) (B.holds book.now) B.looks D.history D.size
            land.old disk.old land.new disk.new }
        ensures no_image { IsSome (B.holds book.now land.old disk.old)
            → IfErr result (λ fault. (fault ≡ BlockFault.NoMemory) ⊎ (fault ≡ BlockFault.Disk)) }
        ensures cause { HasCause BlockFault.Disk (D.faults disk.old) (D.faults disk.new) result }
        ensures rise { reads.old ≤ reads.new }
        ensures reads { IsSome (B.holds book.now land.old disk.old)
            → reads.new ≤ reads.old + (44 + B.to_read book.now land.old disk.old at) }
    {
        if self.entry(at).others == 0 {
            return Ok(0);
        }
        book.count(land, disk, at, reference, reads)
    }

    // Keeps what a book tells of an address that is not known.
    fn keep(&mut self, at: Address, head: Option<Head>) -> Result<(), BlockFault>
        requires { entry_at self.old at ≡ None }
        ensures kept { OnOk result (TakesFirst self.old self.new at head) }
        ensures err { OnErr result (self.new ≡ self.old) }
        ensures no_image { HasTotal head → IfErr result (λ fault. fault ≡ BlockFault.NoMemory) }
        ensures no_disk { IsErrOf result BlockFault.Disk → ⊥ }
    {
        if !has_total(&head) {
            return Err(unfit(at));
        }
        self.entries
            .insert(at.value(), Entry::of(self.alloc, head))?;
        Ok(())
    }

    // Keeps how often a reference is there that is not in the list, of an address that is known.
    pub(crate) fn list(
        &mut self,
        at: Address,
        reference: Reference,
        count: u32,
    ) -> Result<(), BlockFault>
        requires at { Knows self.old at }
        requires new { change_at self.old at reference ≡ None }
        ensures listed { OnOk result (TakesListed self.old self.new at reference count) }
        ensures err { OnErr result (self.new ≡ self.old) }
        ensures no_image { count ≤ others_at self.old at → IfErr result (λ fault. fault ≡ BlockFault.NoMemory) }
        ensures no_disk { IsErrOf result BlockFault.Disk → ⊥ }
    {
        let Some(entry) = self.entries.get_mut(&at.value()) else {
            unreachable!();
        };
        if count as u64 > entry.others {
            return Err(unfit(at));
        }
        entry.list(reference, count)?;
        Ok(())
    }
}

// What is told has a reference.
fn has_total(head: &Option<Head>) -> bool
    ensures { IsTrue result ↔ HasTotal head.now }
{
    match head {
        Some(head) => head.total != 0,
        None => true,
    }
}

// What is told of an address doesn't agree.
pub(crate) fn unfit(address: Address) -> BlockFault
    ensures { result ≡ Image Refs address }
{
    BlockFault::Image {
        rule: Rule::Refs,
        address,
    }
}
