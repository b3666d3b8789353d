// A book of references with what it takes.
ghost use Rattle.std.specs.Prelude.{◌≡◌, ◌<◌, length, IfOk, OnOk, OnErr};
ghost use Rattle.qg_extents.specs.Book.{Adds, Drops, Marks, count_at, full_in, references_at, what_in};
ghost use Rattle.qg_extents.specs.Counts.{greatest_count};
ghost use Rattle.qg_extents.specs.Table.{IsTable, book_of};
ghost use Rattle.qg_weighed.specs.Weight.{weight_of};

use crate::BookCopy;
use crate::lacking::lacking;
use crate::whole::{plus, table_bytes};
use qg_extents::Extents;
use qg_extents::refs::{Reference, What};
use qg_num::{Address, NoMemory};
use std::marker::Model;

/// A book of references beside the one that the last commit recorded, and what the items take that stand for both, each
/// once, in bytes (this project's own).
#[derive(Drop)]
pub struct Weighed {
    refs: Extents,
    held: Extents,
    bytes: u64,
}

impl Model for Weighed {
    ghost use Rattle.qg_weighed.specs.Weight.{Books, IsWeighed};

    ghost Value = { Books };

    ghost view = { λ weighed. record { refs = weighed.refs; held = weighed.held } };

    ghost invariant = { λ weighed. IsWeighed weighed.refs weighed.held weighed.bytes };
}

impl Weighed {
    /// The references of an image that was just opened: the last commit recorded the same. A sum that doesn't fit 64
    /// bits is answered as want of memory.
    pub fn new(refs: Extents) -> Result<Weighed, NoMemory>
        ensures { IfOk result (λ weighed. weighed ≡ record { refs = refs; held = refs }) }
    {
        let held = refs.clone()?;
        let bytes = table_bytes(refs.table())?;
        Ok(Weighed { refs, held, bytes })
    }

    /// The references.
    pub fn refs(&self) -> &Extents
        ensures { result.now ≡ self.now.refs }
    {
        &self.refs
    }

    /// What the items take that stand for the references or for those that the last commit recorded, each once, in
    /// bytes.
    pub fn bytes(&self) -> u64
        ensures { result ≡ weight_of self.now.held self.now.refs }
    {
        self.bytes
    }

    /// At how many addresses something has a reference.
    pub fn len(&self) -> usize
        ensures count { result ≡ length self.now.refs }
        ensures table { IsTable self.now.refs }
    {
        self.refs.len()
    }

    /// What is known of what begins at an address.
    pub fn known(&self, at: Address) -> Option<What>
        ensures { result ≡ what_in (book_of self.now.refs at) }
    {
        self.refs.known(at)
    }

    /// How many different references there are to what begins at an address; a node has each of its references once.
    pub fn how_many(&self, at: Address) -> usize
        ensures { result ≡ length (references_at (book_of self.now.refs) at) }
    {
        self.refs.how_many(at)
    }

    /// How often a reference is there.
    pub fn count_one(&self, at: Address, reference: &Reference) -> u32
        ensures { result ≡ count_at (book_of self.now.refs) at reference.now }
    {
        self.refs.count_one(at, reference)
    }

    /// Whether what begins at an address is full.
    pub fn is_marked(&self, at: Address) -> bool
        ensures { result ≡ full_in (book_of self.now.refs at) }
    {
        self.refs.is_marked(at)
    }

    /// One reference more at an address. What is told of it is kept where it has no reference yet. A sum that doesn't
    /// fit 64 bits is answered as want of memory.
    pub fn add_one(&mut self, at: Address, what: What, reference: Reference) -> Result<(), NoMemory>
        requires { count_at (book_of self.old.refs) at reference < greatest_count reference }
        ensures ok { OnOk result (Adds (book_of self.old.refs) (book_of self.new.refs) at what reference) }
        ensures held { self.new.held ≡ self.old.held }
        ensures err { OnErr result (self.new ≡ self.old) }
    {
        let more = lacking(&self.held, &self.refs, at, &what, &reference);
        let bytes = plus(self.bytes, more)?;
        self.refs.add_one(at, what, reference)?;
        let _ascending = self.refs.len();
        self.bytes = bytes;
        Ok(())
    }

    /// One reference less at an address. Where it was the last one, nothing is kept of what is there.
    pub fn drop_at(&mut self, at: Address, reference: &Reference)
        requires { 0 < count_at (book_of self.old.refs) at reference.now }
        ensures dropped { Drops (book_of self.old.refs) (book_of self.new.refs) at reference.now }
        ensures held { self.new.held ≡ self.old.held }
    {
        let Some(what) = self.refs.known(at) else {
            unreachable!();
        };
        self.refs.drop_at(at, reference);
        let _ascending = self.refs.len();
        self.bytes -= lacking(&self.held, &self.refs, at, &what, reference);
    }

    /// What is at an address is full from now on.
    pub fn mark(&mut self, at: Address)
        requires { 0 < length (references_at (book_of self.old.refs) at) }
        ensures marked { Marks (book_of self.old.refs) (book_of self.new.refs) at }
        ensures held { self.new.held ≡ self.old.held }
    {
        self.refs.mark(at);
        let _ascending = self.refs.len();
    }

    /// What a commit is to record: the references as they are.
    pub fn to_record(&self) -> Result<BookCopy, NoMemory>
        ensures { IfOk result (λ copy. copy ≡ self.now.refs) }
    {
        let refs = self.refs.clone()?;
        let bytes = table_bytes(self.refs.table())?;
        Ok(BookCopy { refs, bytes })
    }

    /// A commit recorded the references, of which this is a copy. It takes no memory.
    pub fn hold(&mut self, copy: BookCopy)
        requires { copy ≡ self.old.refs }
        ensures held { self.new ≡ record self.old { held = self.old.refs } }
    {
        self.held = copy.refs;
        self.bytes = copy.bytes;
    }
}
