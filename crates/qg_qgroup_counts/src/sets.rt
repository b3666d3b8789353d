// A table of sets of subvolumes.
ghost use Rattle.std.specs.Prelude.{◌≡◌, ◌<◌, ◌↔◌, ◌⊎◌, ℕ, [], length, true, IfOk, IfSome, IsTrue, slice_index_or};
ghost use Rattle.std.specs.List.{All, Contains};
ghost use Rattle.qg_qgroup_counts.specs.Sets.{HasMember, row_of, Stand, IsInOne, IsUnionOf};

use crate::rows::add_members;
use qg_num::Sequence;
use std::alloc::{AllocError, Global};
use std::marker::Model;

/// The number of a set of subvolumes (this project's own).
#[derive(Clone, Copy, PartialEq, Eq)]
pub struct SetId {
    number: usize,
}

impl Model for SetId {
    ghost use Rattle.std.specs.Prelude.{ℕ};

    ghost Value = { ℕ };

    ghost view = { λ set. set.number };

    ghost inverse = { λ n. record { number = n } };
}

impl SetId {
    /// The set without members.
    pub(crate) const NONE: SetId = SetId { number: 0 };

    /// The set of a number.
    pub fn new(number: usize) -> SetId
        ensures { result ≡ number }
    {
        SetId { number }
    }

    /// Its number. Sets are numbered from 0 on.
    pub fn number(self) -> usize
        ensures { result ≡ self }
    {
        self.number
    }
}

/// Sets of subvolumes, each told once where that is cheap (this project's own).
#[derive(Drop)]
pub(crate) struct Sets {
    // Of each set the words of its members.
    rows: Vec<Sequence<u64>>,
    // Of each set the one that was made last with it as the first of some. It is only where to look first.
    made: Vec<SetId>,
}

impl Sets {
    /// The set without members alone.
    pub(crate) fn new(alloc: Global) -> Result<Sets, AllocError>
        ensures { IfOk result (λ sets. length sets.rows.items ≡ 1) }
    {
        let mut rows = Vec::new(alloc);
        rows.push(Sequence::new(alloc))?;
        let mut made = Vec::new(alloc);
        made.push(SetId::NONE)?;
        Ok(Sets { rows, made })
    }

    /// How many sets there are.
    pub(crate) fn len(&self) -> usize
        ensures { result ≡ length self.now.rows.items }
    {
        self.rows.len()
    }

    /// The words of a set's members; none for a number that is no set's.
    pub(crate) fn row(&self, set: SetId) -> &[u64]
        ensures { result.now ≡ row_of self.now.rows.items set }
    {
        if set.number < self.rows.len() {
            self.rows[set.number].as_slice()
        } else {
            &[]
        }
    }

    /// The union of some sets and of a row of members.
    pub(crate) fn union_with(
        &mut self,
        alloc: Global,
        own: &[u64],
        sets: &[SetId],
    ) -> Result<SetId, AllocError>
        ensures { IfOk result (λ set. IsUnionOf self.old.rows.items own.now sets.now self.new.rows.items set) }
    {
        if own.is_empty()
            && let Some(set) = only_one(sets)
        {
            return Ok(set);
        }
        let row = self.gathered(alloc, own, sets)?;
        self.keep(row, first_of(sets))
    }

    /// The members of some sets and of a row.
    fn gathered(
        &self,
        alloc: Global,
        own: &[u64],
        sets: &[SetId],
    ) -> Result<Sequence<u64>, AllocError>
        ensures { IfOk result (λ row. (member : ℕ) →
            HasMember row member ↔ (HasMember own.now member ⊎ IsInOne self.now.rows.items sets.now member)) }
    {
        let mut row = Sequence::from_slice(alloc, own)?;
        for set in sets {
            add_members(&mut row, self.row(*set))?;
        }
        Ok(row)
    }

    /// A set with these members: one that stands, where it is found at once, otherwise a new one.
    fn keep(&mut self, row: Sequence<u64>, beside: SetId) -> Result<SetId, AllocError>
        ensures stand { IfOk result (λ _. Stand self.old.rows.items self.new.rows.items) }
        ensures inside { IfOk result (λ set. set < length self.new.rows.items) }
        ensures row { IfOk result (λ set. row_of self.new.rows.items set ≡ row) }
    {
        let found = self.likely(row.as_slice(), beside);
        if self.is_row(found, row.as_slice()) {
            return Ok(found);
        }
        let set = SetId::new(self.rows.len());
        self.rows.push(row)?;
        self.made.push(set)?;
        note(self.made.as_mut_slice(), beside, set);
        Ok(set)
    }

    /// Where a row may stand already: the set without members, or the one that was made last beside another.
    fn likely(&self, row: &[u64], beside: SetId) -> SetId {
        if !row.is_empty() && beside.number < self.made.len() {
            self.made[beside.number]
        } else {
            SetId::NONE
        }
    }

    /// Whether these are the words of a set's members.
    fn is_row(&self, set: SetId, row: &[u64]) -> bool
        ensures inside { result ≡ true → set < length self.now.rows.items }
        ensures row { result ≡ true → row_of self.now.rows.items set ≡ row.now }
    {
        set.number < self.rows.len() && self.rows[set.number].as_slice() == row
    }
}

/// Notes which set was made last beside another.
fn note(made: &mut [SetId], beside: SetId, set: SetId) {
    if beside.number < made.len() {
        made[beside.number] = set;
    }
}

/// The first of some sets.
fn first_of(sets: &[SetId]) -> SetId {
    match sets.first() {
        Some(first) => *first,
        None => SetId::NONE,
    }
}

/// The one set that all of these are; none where they differ or there is none.
fn only_one(sets: &[SetId]) -> Option<SetId>
    ensures { IfSome result (λ set. Contains sets.now set × All (λ other. other ≡ set) sets.now) }
{
    let first = sets.first()?;
    if are_all(sets, *first) {
        Some(*first)
    } else {
        None
    }
}

/// Whether all of some sets are this one.
fn are_all(sets: &[SetId], set: SetId) -> bool
    ensures { result ≡ true → All (λ other. other ≡ set) sets.now }
{
    for other in sets {
        if *other != set {
            return false;
        }
    }
    true
}
