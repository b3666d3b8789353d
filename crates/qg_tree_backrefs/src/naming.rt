// Extents that pieces of files name.
ghost use Rattle.std.specs.Prelude.{◌≡◌, ◌<◌, true, false, IfOk, None, OnErr, nat_lt};
ghost use Rattle.qg_refs.specs.Book.{Adds, Drops, count_at};
ghost use Rattle.qg_refs.specs.Counts.{greatest_count};
ghost use Rattle.qg_weighed.specs.Table.{book_of};

use crate::TreeRefs;
use qg_num::{Address, NoMemory};
use qg_refs::{Reference, What, greatest_count};

impl TreeRefs {
    /// One reference more to an extent of so many bytes, and whether it may be there once more; where not, nothing
    /// changes. Of an extent that has a reference already what is known stays.
    pub fn name(&mut self, at: Address, bytes: u64, reference: Reference) -> Result<bool, NoMemory>
        ensures given { IfOk result (λ given. given ≡ true → Adds (book_of self.old.refs) (book_of self.new.refs) at
            (record { bytes = bytes; level = None; generation = self.old.next }) reference) }
        ensures room { IfOk result (λ given. given ≡ nat_lt (count_at (book_of self.old.refs) at reference)
            (greatest_count reference)) }
        ensures same { IfOk result (λ given. given ≡ false → self.new ≡ self.old) }
        ensures others { self.new ≡ record self.old { refs = self.new.refs } }
        ensures err { OnErr result (self.new ≡ self.old) }
    {
        if self.refs.count_one(at, &reference) >= greatest_count(&reference) {
            return Ok(false);
        }
        let what = What {
            bytes,
            level: None,
            generation: self.next,
        };
        self.refs.add_one(at, what, reference)?;
        Ok(true)
    }

    /// One reference fewer to what lies at an address, and whether it was there; where not, nothing changes.
    pub fn unname(&mut self, at: Address, reference: &Reference) -> bool
        ensures taken { result ≡ true → Drops (book_of self.old.refs) (book_of self.new.refs) at reference.now }
        ensures there { result ≡ nat_lt 0 (count_at (book_of self.old.refs) at reference.now) }
        ensures same { result ≡ false → self.new ≡ self.old }
        ensures others { self.new ≡ record self.old { refs = self.new.refs } }
    {
        if self.refs.count_one(at, reference) == 0 {
            return false;
        }
        self.refs.drop_at(at, reference);
        true
    }
}
