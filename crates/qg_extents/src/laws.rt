// What writing and reading a book are to each other, and to what is owed.
ghost use Rattle.qg_extents.specs.Laws.{ReadsBack, ReadsOwed};

/// A law: where records say all that is known, what the items of a book say is read as the same book. And where parts
/// agree with what a layout owes, they are the records of a book that agrees with it (this project's own).
pub fn book_laws()
    ensures back { ReadsBack }
    ensures owed { ReadsOwed }
{}
