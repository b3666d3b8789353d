// Laws that lead from the trees of subvolumes to a step of the machine.
ghost use Rattle.qg_fs_laws.specs.StepLaws.{
  ChangesAreTold,
  CommitIsOfMachine,
  FileCommandCopies,
  HeldIsKept,
  LevelIsTold,
  OthersWeigh,
  ReachIsTold,
  SpaceIsTold,
  StateIsHeld,
  StateIsWhole,
  WeightIsTold,
};

/// A law: what is free of a state, the level of the root at hand, what a commit's items weigh and what each file
/// command changes are told by the trees that are kept of it (this project's own).
pub fn numbers_are_the_trees()
    ensures space { SpaceIsTold }
    ensures level { LevelIsTold }
    ensures weight { WeightIsTold }
    ensures others { OthersWeigh }
    ensures changes { ChangesAreTold }
{}

/// A law: all that subvolumes reach is among the nodes of a state's layout and the runs that are taken, which lie apart
/// (this project's own).
pub fn reach_is_the_trees()
    ensures reach { ReachIsTold }
{}

/// A law: nodes in memory, disk and book hold a state that trees are kept of (this project's own).
pub fn state_is_held()
    ensures held { StateIsHeld }
{}

/// A law: trees are kept of a state that is held, where they are its subvolumes' and have the items of their files, as
/// a structural command leaves them (this project's own).
pub fn held_state_is_kept()
    ensures kept { HeldIsKept }
{}

/// A law: a state that trees are kept of is whole, and a file command leaves one that follows it by copy on write,
/// which the trees are kept of then (this project's own).
pub fn file_command_copies()
    ensures whole { StateIsWhole }
    ensures copies { FileCommandCopies }
{}

/// A law: where three other trees tell the state that a commit leaves, and lie in free slots, the commit is one of the
/// machine (this project's own).
pub fn commit_is_one_of_the_machine()
    ensures commits { CommitIsOfMachine }
{}
