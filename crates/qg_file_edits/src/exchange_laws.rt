// What exchanges of a file's pieces make of items, names and sums.
ghost use Rattle.qg_file_edits.specs.ExchangeLaws.{
  AllIsGone,
  AllIsPut,
  CutIsExchanged,
  CutRestsNameExtents,
  CutStepsAreFew,
  ExchangesCanBeMade,
  ExchangesNames,
  FileCanBeMade,
  FileCanGo,
  MovedNamesExtent,
  NamesAdd,
  NamesAreFew,
  NamesAreThoseOfPieces,
  NamesCountOnce,
  NamesInAnyOrder,
  PartsNameExtents,
  PiecesAreFew,
  RangeCanBeMade,
  RangeIsExchanged,
  RangeRestsNameExtents,
  RangeStepsAreFew,
  RemovesNames,
  SizeCanBeMade,
  StepsAreFew,
  StepsExchange,
  SumsAreExchanged,
};

/// A law: where pieces of a file can be exchanged for others, the steps between them can be made one after the other,
/// and make the exchange (this project's own).
pub fn steps_make_the_exchange()
    ensures { StepsExchange }
{}

/// A law: what a file command does to the pieces of a file is an exchange of one stretch of them (this project's own).
pub fn exchanges_by_files()
    ensures range { RangeIsExchanged }
    ensures size { CutIsExchanged }
    ensures made { AllIsPut }
    ensures removed { AllIsGone }
{}

/// A law: in the items of files that can be written, the exchanges of file commands can be made (this project's own).
pub fn exchanges_can_be_made()
    ensures any { ExchangesCanBeMade }
    ensures range { RangeCanBeMade }
    ensures size { SizeCanBeMade }
    ensures made { FileCanBeMade }
    ensures removed { FileCanGo }
{}

/// A law: how many steps an exchange takes at most (this project's own).
pub fn steps_are_few()
    ensures any { StepsAreFew }
    ensures range { RangeStepsAreFew }
    ensures size { CutStepsAreFew }
{}

/// A law: which pieces files name, and which they name once pieces of one are exchanged, or one is taken out (this
/// project's own).
pub fn names_are_exchanged()
    ensures spelled { NamesAreThoseOfPieces }
    ensures exchanged { ExchangesNames }
    ensures removed { RemovesNames }
{}

/// A law: what rests of pieces names the extents that they name (this project's own).
pub fn rests_name_their_extents()
    ensures range { RangeRestsNameExtents }
    ensures size { CutRestsNameExtents }
    ensures parts { PartsNameExtents }
    ensures moved { MovedNamesExtent }
{}

/// A law: how often a reference is there by the pieces of files (this project's own).
pub fn names_are_few()
    ensures pieces { PiecesAreFew }
    ensures files { NamesAreFew }
    ensures once { NamesCountOnce }
    ensures add { NamesAdd }
    ensures order { NamesInAnyOrder }
{}

/// A law: the sum of a file's pieces, once some are exchanged (this project's own).
pub fn sums_are_exchanged()
    ensures { SumsAreExchanged }
{}
