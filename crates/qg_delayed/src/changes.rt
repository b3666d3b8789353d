// The changes of references to one address.
ghost use Rattle.std.specs.Prelude.{◌≡◌, [], None, IsSome, OnOk, OnErr};
ghost use Rattle.qg_delayed.specs.Changes.{ChangesAscend, change_of, with_change};

use crate::Change;
use crate::place::{index_of, place_of};
use qg_items::Reference;
use qg_num::NoMemory;
use std::alloc::Global;
use std::marker::Model;

/// The changes of references to one address. A contract sees a list that ascends by reference, each once.
#[derive(Drop)]
pub struct Changes {
    list: Vec<Change>,
}

impl Model for Changes {
    ghost use Rattle.std.specs.Prelude.{List};
    ghost use Rattle.qg_delayed.specs.declared.change.Change.{Change};
    ghost use Rattle.qg_delayed.specs.Changes.{ChangesAscend};

    ghost Value = { List Change };

    ghost view = { λ changes. changes.list.items };

    ghost invariant = { λ changes. ChangesAscend changes.list.items };
}

impl Changes {
    /// No change.
    pub(crate) fn new(alloc: Global) -> Changes
        ensures { result ≡ [] }
    {
        Changes {
            list: Vec::new(alloc),
        }
    }

    /// The change of a reference, if there is one.
    pub(crate) fn get(&self, reference: &Reference) -> Option<Change>
        ensures { result ≡ change_of reference.now self.now }
    {
        match index_of(&self.list, reference) {
            Some(index) => Some(self.list[index]),
            None => None,
        }
    }

    /// Puts a change in the place of that of the same reference.
    pub(crate) fn replace(&mut self, change: Change)
        requires { IsSome (change_of change.reference self.old) }
        ensures { self.new ≡ with_change change self.old }
    {
        let Some(index) = index_of(&self.list, &change.reference) else {
            unreachable!();
        };
        self.list[index] = change;
    }

    /// Puts a change of a reference that has none. Where memory is refused, nothing changes.
    pub(crate) fn put(&mut self, change: Change) -> Result<(), NoMemory>
        requires { change_of change.reference self.old ≡ None }
        ensures ok { OnOk result (self.new ≡ with_change change self.old) }
        ensures err { OnErr result (self.new ≡ self.old) }
    {
        let index = place_of(&self.list, &change.reference);
        self.list.insert(index, change)?;
        Ok(())
    }

    /// The changes, ascending by reference, each once.
    pub(crate) fn as_slice(&self) -> &[Change]
        ensures same { result.now ≡ self.now }
        ensures ascend { ChangesAscend result.now }
    {
        &self.list
    }
}
