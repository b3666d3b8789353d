// Looking up all references to an address at once.
ghost use Rattle.std.specs.Prelude.{◌≡◌, ◌+◌, ◌≤◌, ◌⊎◌, Some, IsSome, OnOk, IfErr, IsErrOf};
ghost use Rattle.qg_device.specs.Cause.{HasCause};
ghost use Rattle.qg_refs.specs.Book.{Book, count_at, references_at};
ghost use Rattle.qg_refs.specs.Counts.{IsRefList};
ghost use Rattle.qg_delayed.specs.LookUps.{LooksNothingUp, LooksUp};
ghost use Rattle.qg_delayed.specs.Merged.{Fits, Knows, KnowsAll, KnowsMore, Learns};

use crate::looking::unfit;
use crate::{Delayed, RecordBook};
use qg_disk::Disk;
use qg_num::{Address, BlockFault, Steps};
use qg_refs::Counted;
use std::sync::ledger::Ledger;

impl Delayed {
    /// Keeps how often the book below has each reference to an address that is known, unless all are known. `Image`
    /// comes with `refs` and the address where that doesn't agree with what it told before.
    pub fn look_up_all<G, D: Disk, L: Ledger, B: RecordBook<G, D, L>>(
        &mut self,
        land: &mut G,
        disk: &mut D,
        at: Address,
        book: &B,
        reads: &mut Steps<L>,
    ) -> Result<(), BlockFault>
        requires stands { B.stands book.now land.old disk.old }
        requires at { Knows self.old at }
        ensures known { OnOk result (KnowsAll self.new at) }
        ensures once { KnowsAll self.old at → LooksNothingUp result self.old self.new land.old land.new
            disk.old disk.new reads.old reads.new }
        ensures learns { Learns self.old self.new at }
        ensures told { (below : Book) → B.holds book.now land.old disk.old ≡ Some below → Fits below self.old
            → Fits below self.new }
        ensures leaves { LooksUp (B.stands book.now) (B.holds book.now) B.looks D.history D.size
            land.old disk.old land.new disk.new }
        ensures no_image { (below : Book) → B.holds book.now land.old disk.old ≡ Some below → Fits below self.old
            → IfErr result (λ fault. (fault ≡ BlockFault.NoMemory) ⊎ (fault ≡ BlockFault.Disk)) }
        ensures cause { HasCause BlockFault.Disk (D.faults disk.old) (D.faults disk.new) result }
        ensures rise { reads.old ≤ reads.new }
        ensures reads { IsSome (B.holds book.now land.old disk.old)
            → reads.new ≤ reads.old + (44 + B.to_read book.now land.old disk.old at) }
    {
        if self.entry(at).others == 0 {
            return Ok(());
        }
        let references = book.refs_of(self.alloc, land, disk, at, reads)?;
        self.list_all(at, references.as_slice())?;
        Ok(())
    }

    // Lists all references to an address that is known, and whether they are all.
    fn list_all(&mut self, at: Address, references: &[Counted]) -> Result<(), BlockFault>
        requires at { Knows self.old at }
        requires list { IsRefList references.now }
        ensures known { OnOk result (KnowsAll self.new at) }
        ensures learns { Learns self.old self.new at }
        ensures told { (below : Book) → references_at below at ≡ references.now → Fits below self.old
            → Fits below self.new }
        ensures no_image { (below : Book) → references_at below at ≡ references.now → Fits below self.old
            → IfErr result (λ fault. fault ≡ BlockFault.NoMemory) }
        ensures no_disk { IsErrOf result BlockFault.Disk → ⊥ }
    {
        for counted in references {
            self.list_new(at, counted)?;
        }
        if self.entry(at).others != 0 {
            return Err(unfit(at));
        }
        Ok(())
    }

    // Lists a reference with its count, unless it is in the list.
    fn list_new(&mut self, at: Address, counted: &Counted) -> Result<(), BlockFault>
        requires at { Knows self.old at }
        ensures known { OnOk result (KnowsMore self.old self.new at counted.now.reference) }
        ensures at { Knows self.new at }
        ensures learns { Learns self.old self.new at }
        ensures told { (below : Book) → count_at below at counted.now.reference ≡ counted.now.count
            → Fits below self.old → Fits below self.new }
        ensures no_image { (below : Book) → count_at below at counted.now.reference ≡ counted.now.count
            → Fits below self.old → IfErr result (λ fault. fault ≡ BlockFault.NoMemory) }
        ensures no_disk { IsErrOf result BlockFault.Disk → ⊥ }
    {
        if self.entry(at).changes.get(&counted.reference).is_some() {
            return Ok(());
        }
        self.list(at, counted.reference, counted.count)?;
        Ok(())
    }
}
