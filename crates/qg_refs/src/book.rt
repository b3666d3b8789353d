// A book of references as the layers above see it.
ghost use Rattle.std.specs.Prelude.{◌≡◌, ◌+◌, ◌≤◌, ◌⊎◌, ℕ, Bool, length, Option, Some, IsSome, IfOk, OnOk, IfErr};
ghost use Rattle.std.specs.Prelude.{OnErr};
ghost use Rattle.qg_device.specs.Cause.{HasCause};
ghost use Rattle.qg_refs.specs.Book.{Book, references_at, count_at, full_in, Adds, Drops, Marks, MayHaveMore};
ghost use Rattle.qg_refs.specs.Book.{HasReference, HasSome, Turns};

use crate::{RefList, What};
use qg_disk::Disk;
use qg_items::Reference;
use qg_num::{Address, BlockFault, Steps};
use std::alloc::Global;
use std::sync::ledger::Ledger;

/// A book of references: for each address, in bytes, what is known of the node or the data extent there, its full mark,
/// and a count for each reference to it (on-disk format, "backreferences").
///
/// It may lie on what each call is lent: land, as the nodes in memory, and disk. Where these tell, the book tells what
/// it holds.
pub trait RefBook<G, D: Disk, L: Ledger> {
    /// What the book holds, where these tell it.
    ghost holds: { Self → G → D → Option Book };

    /// What a call asks of the book and of these, and leaves so, whatever it answers.
    ghost stands: { Self → G → D → Type 0 };

    /// There is room for one edit.
    ghost has_room: { Self → G → D → Type 0 };

    /// What a look-up makes of land and disk, and what an edit does.
    ghost looks: { G → D → G → D → Type 0 };

    ghost edits: { G → D → G → D → Type 0 };

    /// What an edit that answers a fault leaves of book, land and disk.
    ghost after_fault: { Self → G → D → Self → G → D → Type 0 };

    /// How many references a look-up of an address may have to read.
    ghost to_read: { Self → G → D → ℕ → ℕ };

    /// The references to what begins at an address.
    fn refs_of(
        &self,
        alloc: Global,
        land: &mut G,
        disk: &mut D,
        at: Address,
        reads: &mut Steps<L>,
    ) -> Result<RefList, BlockFault>
        requires { stands self.now land.old disk.old }
        ensures exact { (book : Book) → holds self.now land.old disk.old ≡ Some book
            → IfOk result (λ list. list ≡ references_at book at) }
        ensures stands { stands self.now land.new disk.new }
        ensures holds { holds self.now land.new disk.new ≡ holds self.now land.old disk.old }
        ensures leaves { looks land.old disk.old land.new disk.new }
        ensures history { D.history disk.new ≡ D.history disk.old }
        ensures size { D.size disk.new ≡ D.size disk.old }
        ensures no_image { IsSome (holds self.now land.old disk.old)
            → IfErr result (λ fault. (fault ≡ BlockFault.NoMemory) ⊎ (fault ≡ BlockFault.Disk)) }
        ensures cause { HasCause BlockFault.Disk (D.faults disk.old) (D.faults disk.new) result }
        ensures rise { reads.old ≤ reads.new }
        ensures reads { IsSome (holds self.now land.old disk.old)
            → reads.new ≤ reads.old + (44 + to_read self.now land.old disk.old at) };

    /// How often a reference to what begins at an address is there.
    fn count(
        &self,
        land: &mut G,
        disk: &mut D,
        at: Address,
        reference: Reference,
        reads: &mut Steps<L>,
    ) -> Result<u32, BlockFault>
        requires { stands self.now land.old disk.old }
        ensures exact { (book : Book) → holds self.now land.old disk.old ≡ Some book
            → IfOk result (λ count. count ≡ count_at book at reference) }
        ensures stands { stands self.now land.new disk.new }
        ensures holds { holds self.now land.new disk.new ≡ holds self.now land.old disk.old }
        ensures leaves { looks land.old disk.old land.new disk.new }
        ensures history { D.history disk.new ≡ D.history disk.old }
        ensures size { D.size disk.new ≡ D.size disk.old }
        ensures no_image { IsSome (holds self.now land.old disk.old)
            → IfErr result (λ fault. (fault ≡ BlockFault.NoMemory) ⊎ (fault ≡ BlockFault.Disk)) }
        ensures cause { HasCause BlockFault.Disk (D.faults disk.old) (D.faults disk.new) result }
        ensures rise { reads.old ≤ reads.new }
        ensures reads { IsSome (holds self.now land.old disk.old)
            → reads.new ≤ reads.old + (44 + to_read self.now land.old disk.old at) };

    /// Whether what begins at an address is full. Where it has no reference it isn't.
    fn is_full(
        &self,
        land: &mut G,
        disk: &mut D,
        at: Address,
        reads: &mut Steps<L>,
    ) -> Result<bool, BlockFault>
        requires { stands self.now land.old disk.old }
        ensures exact { (book : Book) → holds self.now land.old disk.old ≡ Some book
            → IfOk result (λ full. full ≡ full_in (book at)) }
        ensures stands { stands self.now land.new disk.new }
        ensures holds { holds self.now land.new disk.new ≡ holds self.now land.old disk.old }
        ensures leaves { looks land.old disk.old land.new disk.new }
        ensures history { D.history disk.new ≡ D.history disk.old }
        ensures size { D.size disk.new ≡ D.size disk.old }
        ensures no_image { IsSome (holds self.now land.old disk.old)
            → IfErr result (λ fault. (fault ≡ BlockFault.NoMemory) ⊎ (fault ≡ BlockFault.Disk)) }
        ensures cause { HasCause BlockFault.Disk (D.faults disk.old) (D.faults disk.new) result }
        ensures rise { reads.old ≤ reads.new }
        ensures reads { IsSome (holds self.now land.old disk.old)
            → reads.new ≤ reads.old + (44 + to_read self.now land.old disk.old at) };

    /// One reference more to what begins at an address. What is told of it is kept where it has no reference yet.
    fn add(
        &mut self,
        land: &mut G,
        disk: &mut D,
        at: Address,
        what: What,
        reference: Reference,
        reads: &mut Steps<L>,
    ) -> Result<(), BlockFault>
        requires stands { stands self.old land.old disk.old }
        requires room { has_room self.old land.old disk.old }
        requires fits { MayHaveMore (holds self.old land.old disk.old) at reference }
        ensures added { OnOk result
            (Turns (λ old new. Adds old new at what reference) (holds self.old land.old disk.old)
            (holds self.new land.new disk.new)) }
        ensures stands { stands self.new land.new disk.new }
        ensures leaves { edits land.old disk.old land.new disk.new }
        ensures after_fault { OnErr result (after_fault self.old land.old disk.old self.new land.new disk.new) }
        ensures history { D.history disk.new ≡ D.history disk.old }
        ensures size { D.size disk.new ≡ D.size disk.old }
        ensures no_image { IsSome (holds self.old land.old disk.old)
            → IfErr result (λ fault. (fault ≡ BlockFault.NoMemory) ⊎ (fault ≡ BlockFault.Disk)) }
        ensures cause { HasCause BlockFault.Disk (D.faults disk.old) (D.faults disk.new) result }
        ensures rise { reads.old ≤ reads.new };

    /// One reference less to what begins at an address. Where it was the last one, nothing is kept of what is there.
    fn drop_one(
        &mut self,
        land: &mut G,
        disk: &mut D,
        at: Address,
        reference: Reference,
        reads: &mut Steps<L>,
    ) -> Result<(), BlockFault>
        requires stands { stands self.old land.old disk.old }
        requires room { has_room self.old land.old disk.old }
        requires there { HasReference (holds self.old land.old disk.old) at reference }
        ensures dropped { OnOk result (Turns (λ old new. Drops old new at reference) (holds self.old land.old disk.old)
            (holds self.new land.new disk.new)) }
        ensures stands { stands self.new land.new disk.new }
        ensures leaves { edits land.old disk.old land.new disk.new }
        ensures after_fault { OnErr result (after_fault self.old land.old disk.old self.new land.new disk.new) }
        ensures history { D.history disk.new ≡ D.history disk.old }
        ensures size { D.size disk.new ≡ D.size disk.old }
        ensures no_image { IsSome (holds self.old land.old disk.old)
            → IfErr result (λ fault. (fault ≡ BlockFault.NoMemory) ⊎ (fault ≡ BlockFault.Disk)) }
        ensures cause { HasCause BlockFault.Disk (D.faults disk.old) (D.faults disk.new) result }
        ensures rise { reads.old ≤ reads.new };

    /// What begins at an address is full from now on (on-disk format, FULL_BACKREF).
    fn set_full(
        &mut self,
        land: &mut G,
        disk: &mut D,
        at: Address,
        reads: &mut Steps<L>,
    ) -> Result<(), BlockFault>
        requires stands { stands self.old land.old disk.old }
        requires room { has_room self.old land.old disk.old }
        requires there { HasSome (holds self.old land.old disk.old) at }
        ensures marked { OnOk result (Turns (λ old new. Marks old new at) (holds self.old land.old disk.old)
            (holds self.new land.new disk.new)) }
        ensures stands { stands self.new land.new disk.new }
        ensures leaves { edits land.old disk.old land.new disk.new }
        ensures after_fault { OnErr result (after_fault self.old land.old disk.old self.new land.new disk.new) }
        ensures history { D.history disk.new ≡ D.history disk.old }
        ensures size { D.size disk.new ≡ D.size disk.old }
        ensures no_image { IsSome (holds self.old land.old disk.old)
            → IfErr result (λ fault. (fault ≡ BlockFault.NoMemory) ⊎ (fault ≡ BlockFault.Disk)) }
        ensures cause { HasCause BlockFault.Disk (D.faults disk.old) (D.faults disk.new) result }
        ensures rise { reads.old ≤ reads.new };
}
