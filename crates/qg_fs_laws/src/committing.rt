// A commit of subvolumes' trees that are kept of a state.
ghost use Rattle.qg_fs_laws.specs.CommitLaws.{
  RunsLieApart,
  ShortAreLeft,
  SpacedAreShort,
  TreeCommitIsKept,
  TreeCommitIsSound,
  TreeIsKeptStill,
};

/// A law: once the calls of a commit were made, the image is sound and stands for the state that the commit leaves, as
/// the machine says it; and no two runs of a space in order begin at one address (this project's own).
pub fn tree_commit_is_sound()
    ensures sound { TreeCommitIsSound }
    ensures apart { RunsLieApart }
{}

/// A law: trees that a commit has written, and that stand still, are kept of the state that the commit leaves; the book
/// is what that commit recorded. Trees that stand still, and of which nothing else has changed, are kept of the same
/// state (this project's own).
pub fn tree_commit_is_kept()
    ensures kept { TreeCommitIsKept }
    ensures still { TreeIsKeptStill }
{}

/// A law: where the extents of a state keep the rule `space`, its files name none that is longer than the longest, and
/// file commands leave it so, if a write makes no longer one (this project's own).
pub fn extents_stay_short()
    ensures spaced { SpacedAreShort }
    ensures left { ShortAreLeft }
{}
