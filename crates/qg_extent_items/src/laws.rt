// What items tell, and what edits of them make of it.
ghost use Rattle.qg_extent_items.specs.Laws.{
  AddsByItems,
  AreOpened,
  DropsByItems,
  HaveHeads,
  MarksByItems,
  TellTheBook,
};

/// A law: items that an opening lets pass are the records of a book, which is the one that they tell and no other.
/// Where it has a reference, there is a record (this project's own).
pub fn book_of_items()
    ensures opened { AreOpened }
    ensures told { TellTheBook }
    ensures heads { HaveHeads }
{}

/// A law: the edits of items can be made, leave the records of a book, and are the edits of the book that they tell
/// (this project's own).
pub fn edits_of_items()
    ensures adds { AddsByItems }
    ensures drops { DropsByItems }
    ensures marks { MarksByItems }
{}
