// Where what the items of a tree say is kept.
ghost use Rattle.std.specs.Prelude.{◌≡◌};

use crate::part::TreePart;
use qg_num::Sequence;
use std::alloc::{AllocError, Global};

/// What the items of a tree say, in their order. How it lies is for its reader (this project's own).
pub trait PartList<P>: Sized + Drop {
    ghost use Rattle.std.specs.Prelude.{◌≡◌, ◌++◌, ◌∷◌, [], List, OnOk, OnErr};

    /// What it keeps.
    ghost list: { Self → List P };

    /// The empty list, which takes no memory yet.
    fn new(alloc: Global) -> Self
        ensures { list result ≡ [] };

    /// Puts what one more item says at the end. Where memory is refused, the list stays as it was.
    fn push(&mut self, part: P) -> Result<(), AllocError>
        ensures ok { OnOk result (list self.new ≡ list self.old ++ part ∷ []) }
        ensures err { OnErr result (list self.new ≡ list self.old) };
}

impl<P: TreePart> PartList<P> for Sequence<P> {
    ghost list = { λ parts. parts };

    fn new(alloc: Global) -> Sequence<P> {
        Sequence::new(alloc)
    }

    fn push(&mut self, part: P) -> Result<(), AllocError> {
        self.push(part)
    }
}
