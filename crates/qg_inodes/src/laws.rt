// What stands under each key, and what edits of items make of files.
ghost use Rattle.qg_inodes.specs.FileItemsLaws.{
  AreSpelled,
  AreTold,
  CountsMet,
  CountsPast,
  CutHasBodies,
  CutsPieces,
  EditsRange,
  EditsSize,
  ExchangesPieces,
  FilesAscend,
  FilesHaveBodies,
  HasBody,
  HasFileBodies,
  HasNoFileBodies,
  MakesFile,
  MeetsAll,
  MeetsPast,
  PutsFile,
  PutsIn,
  PutsRange,
  RangeHasBodies,
  RemovesFile,
  TakesFile,
  TakesOut,
};

/// A law: items whose keys ascend are told by what stands under each key (this project's own).
pub fn items_are_told_by_bodies()
    ensures told { AreTold }
    ensures has { HasBody }
{}

/// A law: what stands under each key once an item is put in or taken out (this project's own).
pub fn edits_by_bodies()
    ensures put { PutsIn }
    ensures taken { TakesOut }
{}

/// A law: items of bytes that are read as files are exactly those that are written for these files. Their keys ascend,
/// and under each stands what the file of its number has there (this project's own).
pub fn items_of_files()
    ensures spelled { AreSpelled }
    ensures ascending { FilesAscend }
    ensures bodies { FilesHaveBodies }
{}

/// A law: what stands under each key once one file is changed, made or taken out, and that only these items have it
/// (this project's own).
pub fn one_file_by_bodies()
    ensures with_it { HasFileBodies }
    ensures without_it { HasNoFileBodies }
    ensures put { PutsFile }
    ensures taken { TakesFile }
{}

/// A law: the piece at each position once a range of a file has other pieces, or the file is cut to a size, and what
/// stands under each key of the file then (this project's own).
pub fn one_range_by_positions()
    ensures put { PutsRange }
    ensures cut { CutsPieces }
    ensures put_bodies { RangeHasBodies }
    ensures cut_bodies { CutHasBodies }
{}

/// A law: with which edits, one after the other, the items of files become those of the files with one made, changed in
/// a range, cut to a size, or taken out (this project's own).
pub fn edits_of_one_file()
    ensures exchanged { ExchangesPieces }
    ensures made { MakesFile }
    ensures range { EditsRange }
    ensures size { EditsSize }
    ensures removed { RemovesFile }
{}

/// A law: how many pieces meet a range; and of a file that can be written, which and how many meet the range from a
/// size on, and that all meet the range of all (this project's own).
pub fn pieces_by_range()
    ensures met { CountsMet }
    ensures past { CountsPast }
    ensures cut { MeetsPast }
    ensures all { MeetsAll }
{}
