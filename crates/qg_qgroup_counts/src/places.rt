// A list of indices.
ghost use Rattle.std.specs.Prelude.{◌≡◌, ◌++◌, ◌∷◌, [], OnOk};

use smallvec::SmallVec;
use std::alloc::{AllocError, Global};
use std::marker::Model;

/// Indices. A contract sees them in order.
///
/// Two lie in the value itself, so that the common lists take no allocation.
#[derive(Drop)]
pub(crate) struct Places {
    list: SmallVec<usize, 2>,
}

impl Model for Places {
    ghost use Rattle.std.specs.Prelude.{List, ℕ};

    ghost Value = { List ℕ };

    ghost view = { λ p. p.list.items };
}

impl Places {
    /// No index.
    pub(crate) fn new(alloc: Global) -> Places
        ensures { result ≡ [] }
    {
        Places {
            list: SmallVec::new(alloc),
        }
    }

    /// Puts an index at the end.
    pub(crate) fn push(&mut self, place: usize) -> Result<(), AllocError>
        ensures ok { OnOk result (self.new ≡ self.old ++ place ∷ []) }
    {
        self.list.push(place)?;
        Ok(())
    }

    /// The indices.
    pub(crate) fn as_slice(&self) -> &[usize]
        ensures { result.now ≡ self.now }
    {
        self.list.as_slice()
    }
}
