// When subvolumes' trees stand, and what their book knows then.
ghost use Rattle.qg_commit_trees.specs.Laws.{
  CanTurnOpened,
  CanTurnStill,
  IsSubvolumeAlike,
  IsSubvolumeOpened,
  IsSubvolumeStill,
  IsToldAlike,
  StandingKnowsNoLater,
  StandingKnowsRoot,
  StandsOnceCommitted,
  StandsOnceOpened,
  StandsWhereToldAlike,
  SuperblocksKeepSlots,
  SyncsKeepSlots,
};

/// A law: trees that a commit has written stand as they stood, for the generation to come (this project's own).
pub fn commit_leaves_it()
    ensures subvolume { IsSubvolumeStill }
    ensures turns { CanTurnStill }
    ensures stands { StandsOnceCommitted }
{}

/// A law: what is made of a sound image that was just opened stands (this project's own).
pub fn opening_makes_it()
    ensures subvolume { IsSubvolumeOpened }
    ensures turns { CanTurnOpened }
    ensures stands { StandsOnceOpened }
{}

/// A law: trees that stand do so where the same is told, whatever clean nodes are in memory (this project's own).
pub fn reading_leaves_it()
    ensures subvolume { IsSubvolumeAlike }
    ensures stands { StandsWhereToldAlike }
    ensures told { IsToldAlike }
{}

/// A law: a superblock that is written at its place changes nothing in slots (this project's own).
pub fn superblocks_keep_slots()
    ensures synced { SyncsKeepSlots }
    ensures written { SuperblocksKeepSlots }
{}

/// A law: what the book of trees that stand knows of the root of the one at hand, and of generations (this project's
/// own).
pub fn its_book_knows()
    ensures root { StandingKnowsRoot }
    ensures early { StandingKnowsNoLater }
{}
