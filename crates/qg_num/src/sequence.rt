// A list that clauses see as one.
ghost use Rattle.std.specs.Prelude.{◌≡◌, ◌<◌, ◌≤◌, ◌==◌, ◌∷◌, ◌++◌, [], IfOk, OnOk, OnErr, length, take, drop, remove};
ghost use Rattle.std.specs.Prelude.{slice_get, slice_set, slice_index_or};
ghost use Rattle.std.specs.Borrow.{sem};
ghost use Rattle.qg_num.specs.Lending.{LendsItem};

use crate::{GroupId, Piece, RootId, Row};
use std::alloc::{AllocError, Global};
use std::marker::Model;
use std::mem;

/// Quota groups, in the order in which they were named.
pub type GroupList = Sequence<GroupId>;

/// Subvolumes, ascending.
pub type OwnerList = Sequence<RootId>;

/// A file's pieces, ascending by position.
pub type Pieces = Sequence<Piece>;

/// Quota groups with their counters and limits, ascending by number.
pub type Rows = Sequence<Row>;

/// A growing list (this project's own). A contract sees its items in order, and not where they lie.
#[derive(Drop)]
pub struct Sequence<T> {
    items: Vec<T>,
}

impl<T> Model for Sequence<T> {
    ghost use Rattle.std.specs.Prelude.{List};

    ghost Value = { List T };

    ghost view = { λ s. s.items.items };
}

impl<T: Drop> Sequence<T> {
    /// The empty list, which takes no memory yet.
    pub fn new(alloc: Global) -> Sequence<T>
        ensures { result ≡ [] }
    {
        Sequence {
            items: Vec::new(alloc),
        }
    }

    /// The empty list, with room for so many items.
    pub fn with_capacity(alloc: Global, count: usize) -> Result<Sequence<T>, AllocError>
        ensures { IfOk result (λ items. items ≡ []) }
    {
        Ok(Sequence {
            items: Vec::with_capacity(alloc, count)?,
        })
    }

    /// Puts an item at the end. Where memory is refused, the list stays as it was and the item is dropped.
    pub fn push(&mut self, item: T) -> Result<(), AllocError>
        ensures ok { OnOk result (self.new ≡ self.old ++ item ∷ []) }
        ensures err { OnErr result (self.new ≡ self.old) }
    {
        self.items.push(item)?;
        Ok(())
    }

    /// Puts an item in front of the one at an index, or at the end. Where memory is refused, the list stays as it was
    /// and the item is dropped.
    pub fn insert(&mut self, index: usize, item: T) -> Result<(), AllocError>
        requires { index ≤ length self.old }
        ensures ok { OnOk result (self.new ≡ take index self.old ++ item ∷ drop index self.old) }
        ensures err { OnErr result (self.new ≡ self.old) }
    {
        self.items.insert(index, item)?;
        Ok(())
    }

    /// The item at an index, to be written to.
    pub fn item_mut(&mut self, index: usize) -> &mut T
        requires { index < length self.old }
        ensures* writes_back { sem 𝓛 (LendsItem T.row self.entry index result) }
        ensures value { result.now ≡ slice_index_or self.old index result.now }
    {
        &mut self.items[index]
    }

    /// Puts an item in the place of the one at an index.
    pub fn set(&mut self, index: usize, item: T)
        requires { index < length self.old }
        ensures { self.new ≡ slice_set self.old index item }
    {
        self.items[index] = item;
    }

    /// Puts an item in the place of the one at an index, which it gives back.
    pub fn replace(&mut self, index: usize, item: T) -> T
        requires { index < length self.old }
        ensures taken { slice_get self.old index ≡ Some result }
        ensures put { self.new ≡ slice_set self.old index item }
    {
        mem::replace(&mut self.items[index], item)
    }

    /// Takes the item at an index out; those behind it move down by one.
    pub fn remove(&mut self, index: usize) -> T
        requires { index < length self.old }
        ensures taken { slice_get self.old index ≡ Some result }
        ensures left { self.new ≡ remove self.old index }
    {
        self.items.remove(index)
    }

    /// Takes out the items of a range of indices.
    pub fn remove_range(&mut self, from: usize, to: usize)
        requires order { from ≤ to }
        requires bound { to ≤ length self.old }
        ensures { self.new ≡ take from self.old ++ drop to self.old }
    {
        self.items.drain(from..to);
    }

    /// Takes the items from an index on into a list of their own. Where memory is refused, the list stays as it was.
    pub fn split_off(&mut self, at: usize) -> Result<Sequence<T>, AllocError>
        requires { at ≤ length self.old }
        ensures taken { IfOk result (λ back. self.old ≡ self.new ++ back) }
        ensures left { IfOk result (λ _. length self.new ≡ at) }
        ensures err { OnErr result (self.new ≡ self.old) }
    {
        Ok(Sequence {
            items: self.items.split_off(at)?,
        })
    }

    /// Moves the items of another list to the end. Where memory is refused, both lists stay as they were.
    pub fn append(&mut self, others: &mut Sequence<T>) -> Result<(), AllocError>
        ensures ok { OnOk result (self.new ≡ self.old ++ others.old) }
        ensures moved { OnOk result (others.new ≡ []) }
        ensures err { OnErr result (self.new ≡ self.old) }
        ensures kept { OnErr result (others.new ≡ others.old) }
    {
        self.items.append(&mut others.items)
    }

    /// The items in order.
    pub fn as_slice(&self) -> &[T]
        ensures { result.now ≡ self.now }
    {
        self.items.as_slice()
    }

    /// How many items there are.
    pub fn len(&self) -> usize
        ensures { result ≡ length self.now }
    {
        self.items.len()
    }

    /// Whether there is none.
    pub fn is_empty(&self) -> bool
        ensures { result ≡ (length self.now == 0) }
    {
        self.items.is_empty()
    }

    /// What it takes memory from. Another list can be made from the same.
    pub fn allocator(&self) -> Global {
        *self.items.allocator()
    }
}

impl<T: Copy> Sequence<T> {
    /// A copy of these items.
    pub fn from_slice(alloc: Global, items: &[T]) -> Result<Sequence<T>, AllocError>
        ensures { IfOk result (λ copy. copy ≡ items.now) }
    {
        Ok(Sequence {
            items: Vec::from_slice(alloc, items)?,
        })
    }

    /// Puts items in front of the one at an index, or at the end; those from there on move up once. Where memory is
    /// refused, the list stays as it was.
    pub fn insert_slice(&mut self, index: usize, items: &[T]) -> Result<(), AllocError>
        requires { index ≤ length self.old }
        ensures ok { OnOk result (self.new ≡ take index self.old ++ items.now ++ drop index self.old) }
        ensures err { OnErr result (self.new ≡ self.old) }
    {
        self.items.extend_from_slice(items)?;
        self.items[index..].rotate_right(items.len());
        Ok(())
    }
}
