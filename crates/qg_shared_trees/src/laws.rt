// What subvolumes' trees, as they stand between two edits, are in the state of the machine.
ghost use Rattle.qg_shared_trees.specs.Laws.{
  CommandsCopy,
  IsLow,
  ItemsOfFilesFit,
  MovesCompose,
  NodesAreThoseReached,
  NodesFitByItems,
  OwedIsCounted,
  StateIsWhole,
  TreesAreWalked,
};

/// A law: the nodes of the trees as a layout ascend by address, and are those that some tree reaches (this project's
/// own).
pub fn nodes_are_those_reached()
    ensures reached { NodesAreThoseReached }
{}

/// A law: each tree that stands has eight levels at most, is walked in the state without a failure, and has the items
/// of its subvolume's files (this project's own).
pub fn trees_are_walked()
    ensures low { IsLow }
    ensures walked { TreesAreWalked }
{}

/// A law: where each node that some tree reaches has a text, and its numbers fit their fields, the state's layout is
/// that of its files. So they are where the trees' items fit, and items that are written for files do (this project's
/// own).
pub fn state_is_whole()
    ensures items { NodesFitByItems }
    ensures files { ItemsOfFilesFit }
    ensures whole { StateIsWhole }
{}

/// A law: edits of a tree between two commits, one after the other, leave a layout that follows the one before by copy
/// on write (this project's own).
pub fn commands_copy()
    ensures compose { MovesCompose }
    ensures copy { CommandsCopy }
{}

/// A law: where the pieces that are named are those of the items, what the state's layout owes is what is counted, and
/// of each node and extent the book knows what it is (this project's own).
pub fn owed_is_counted()
    ensures counted { OwedIsCounted }
{}
