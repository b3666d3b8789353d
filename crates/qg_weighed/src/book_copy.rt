// What a commit records of a book.
use qg_extents::Extents;
use std::marker::Model;

/// A copy of a book's references, with what the items take that stand for them, in bytes (this project's own): what a
/// commit is to record, made before the commit is written. A contract sees the references.
#[derive(Drop)]
pub struct BookCopy {
    pub(crate) refs: Extents,
    pub(crate) bytes: u64,
}

impl Model for BookCopy {
    ghost use Rattle.std.specs.Prelude.{List, ℕ};
    ghost use Rattle.qg_extents.specs.Types.{Kept};
    ghost use Rattle.qg_weighed.specs.Weight.{IsWeighed};

    ghost Value = { List (ℕ × Kept) };

    ghost view = { λ copy. copy.refs };

    ghost invariant = { λ copy. IsWeighed copy.refs copy.refs copy.bytes };
}
