// What a book tells of an address in one look-up.
ghost use Rattle.std.specs.Prelude.{◌≡◌, ◌+◌, ◌≤◌, ◌⊎◌, None, Some, IsSome, IfOk, IfErr};
ghost use Rattle.qg_device.specs.Cause.{HasCause};
ghost use Rattle.qg_refs.specs.Book.{Book, IsBook};
ghost use Rattle.qg_delayed.specs.Below.{head_in};

use qg_disk::Disk;
use qg_num::{Address, BlockFault, Steps};
use qg_refs::{RefBook, What};
use std::sync::ledger::Ledger;

/// All that a book tells of an address but which references it has (this project's own).
#[derive(Clone, Copy)]
pub struct Head {
    /// What is known of what is there.
    pub what: What,
    /// The full mark.
    pub full: bool,
    /// How often all its references are there, together.
    pub total: u64,
}

/// A book of references that tells what it has at an address in one look-up.
pub trait RecordBook<G, D: Disk, L: Ledger>: RefBook<G, D, L> {
    /// All but which references there are; none exactly where there is no reference.
    fn head(
        &self,
        land: &mut G,
        disk: &mut D,
        at: Address,
        reads: &mut Steps<L>,
    ) -> Result<Option<Head>, BlockFault>
        requires { Self.stands self.now land.old disk.old }
        ensures exact { (book : Book) → Self.holds self.now land.old disk.old ≡ Some book
            → IfOk result (λ head. head ≡ head_in (book at)) }
        ensures stands { Self.stands self.now land.new disk.new }
        ensures holds { Self.holds self.now land.new disk.new ≡ Self.holds self.now land.old disk.old }
        ensures leaves { Self.looks land.old disk.old land.new disk.new }
        ensures history { D.history disk.new ≡ D.history disk.old }
        ensures size { D.size disk.new ≡ D.size disk.old }
        ensures no_image { IsSome (Self.holds self.now land.old disk.old)
            → IfErr result (λ fault. (fault ≡ BlockFault.NoMemory) ⊎ (fault ≡ BlockFault.Disk)) }
        ensures cause { HasCause BlockFault.Disk (D.faults disk.old) (D.faults disk.new) result }
        ensures rise { reads.old ≤ reads.new }
        ensures reads { IsSome (Self.holds self.now land.old disk.old)
            → reads.new ≤ reads.old + (44 + Self.to_read self.now land.old disk.old at) };

    /// Whatever it tells is a book.
    ghost sound: { (book : Self) (land : G) (disk : D) (told : Book) → Self.stands book land disk
        → Self.holds book land disk ≡ Some told → IsBook told };

    /// Once the disk tells nothing, it goes on telling nothing while the disk isn't written.
    ghost untold: { (book book' : Self) (land land' : G) (disk disk' : D) → D.history disk' ≡ D.history disk
        → Self.holds book land disk ≡ None → Self.holds book' land' disk' ≡ None };
}
