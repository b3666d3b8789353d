// A count for each reference.
ghost use Rattle.std.specs.Prelude.{◌≡◌, ◌-◌, ◌^◌, ◌<◌, ◌==◌, [], length, IfSome, IfNone, IfOk, OnOk, OnErr};
ghost use Rattle.std.specs.Prelude.{slice_index_or};
ghost use Rattle.qg_refs.specs.Counts.{count_of, HasOneMore, HasSoManyMore, IsRefList};

use crate::Counted;
use crate::place::{index_of, place_of};
use qg_items::Reference;
use qg_num::NoMemory;
use smallvec::SmallVec;
use std::alloc::{AllocError, Global};
use std::marker::Model;

/// The references to one node or extent, each with its count (on-disk format, "backreferences"). A contract sees them
/// ascending, each once and none with the count 0, and asks for the count of one.
///
/// Two lie in the value itself, so that what one or two subvolumes reach takes no allocation.
#[derive(Drop)]
pub struct RefList {
    counts: SmallVec<Counted, 2>,
}

impl Model for RefList {
    ghost use Rattle.std.specs.Prelude.{List};
    ghost use Rattle.qg_refs.specs.declared.counted.Counted.{Counted};
    ghost use Rattle.qg_refs.specs.Counts.{IsRefList};

    ghost Value = { List Counted };

    ghost view = { λ list. list.counts.items };

    ghost invariant = { λ list. IsRefList list.counts.items };
}

impl RefList {
    /// No reference.
    pub fn new(alloc: Global) -> RefList
        ensures { result ≡ [] }
    {
        RefList {
            counts: SmallVec::new(alloc),
        }
    }

    /// The count of a reference: 0 where it is not there.
    pub fn count(&self, reference: &Reference) -> u32
        ensures { result ≡ count_of self.now reference.now }
    {
        let entries = self.counts.as_slice();
        match index_of(entries, reference) {
            Some(index) => entries[index].count,
            None => 0,
        }
    }

    /// One more of a reference. Where memory is refused, nothing changes.
    pub fn add(&mut self, reference: Reference) -> Result<(), NoMemory>
        requires room { count_of self.old reference < 2 ^ 32 - 1 }
        ensures ok { OnOk result (HasOneMore self.old self.new reference) }
        ensures err { OnErr result (self.new ≡ self.old) }
    {
        if let Some(index) = index_of(self.counts.as_slice(), &reference) {
            let count = self.counts.as_slice()[index].count;
            self.counts.as_mut_slice()[index] = Counted {
                reference,
                count: count + 1,
            };
            return Ok(());
        }
        let index = place_of(self.counts.as_slice(), &reference);
        self.counts.insert(
            index,
            Counted {
                reference,
                count: 1,
            },
        )?;
        Ok(())
    }

    /// Puts a reference that is not there, with its count. Where memory is refused, nothing changes.
    pub fn put(&mut self, reference: Reference, count: u32) -> Result<(), NoMemory>
        requires some { 0 < count }
        requires absent { count_of self.old reference ≡ 0 }
        ensures ok { OnOk result (HasSoManyMore self.old self.new reference count) }
        ensures err { OnErr result (self.new ≡ self.old) }
    {
        let index = place_of(self.counts.as_slice(), &reference);
        self.counts.insert(index, Counted { reference, count })?;
        Ok(())
    }

    /// One less of a reference.
    pub fn drop_one(&mut self, reference: &Reference)
        requires { 0 < count_of self.old reference.now }
        ensures { HasOneMore self.new self.old reference.now }
    {
        let Some(index) = index_of(self.counts.as_slice(), reference) else {
            unreachable!();
        };
        let count = self.counts.as_slice()[index].count;
        if count == 1 {
            self.counts.remove(index);
        } else {
            self.counts.as_mut_slice()[index] = Counted {
                reference: *reference,
                count: count - 1,
            };
        }
    }

    /// The references with their counts, ascending.
    pub fn as_slice(&self) -> &[Counted]
        ensures same { result.now ≡ self.now }
        ensures sound { IsRefList result.now }
    {
        self.counts.as_slice()
    }

    /// How many different references there are.
    pub fn len(&self) -> usize
        ensures { result ≡ length self.now }
    {
        self.counts.len()
    }

    /// Whether there is none.
    pub fn is_empty(&self) -> bool
        ensures { result ≡ (length self.now == 0) }
    {
        self.counts.is_empty()
    }

    /// The same counts once more.
    pub fn copy(&self, alloc: Global) -> Result<RefList, NoMemory>
        ensures { IfOk result (λ copy. copy ≡ self.now) }
    {
        Ok(RefList {
            counts: SmallVec::from_slice(alloc, self.counts.as_slice())?,
        })
    }
}

impl Clone for RefList {
    ghost is_clone = { λ list copy. copy ≡ list };

    fn clone(&self) -> Result<RefList, AllocError> {
        Ok(RefList {
            counts: SmallVec::from_slice(*self.counts.allocator(), self.counts.as_slice())?,
        })
    }
}
