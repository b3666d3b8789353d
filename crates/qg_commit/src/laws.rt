// What a disk holds after a commit, and which nodes a commit writes.
ghost use Rattle.qg_commit.specs.Laws.{
  CommitIsOnDisk,
  FreshAreFlushed,
  FreshAreReached,
  FreshAreReadBack,
  WrittenAreNew,
};

/// A law: where trees stand, one of them reaches each fresh node. So where the numbers of what they reach fit their
/// fields, each fresh node is read from its text (this project's own).
pub fn fresh_are_reached()
    ensures reached { FreshAreReached }
    ensures read { FreshAreReadBack }
{}

/// A law: once a commit's calls were made, a disk holds the root, extent and quota trees and each node that some
/// subvolume's tree reaches (this project's own).
pub fn commit_is_on_disk()
    ensures held { CommitIsOnDisk }
{}

/// A law: the nodes written are those of the committed state that the last commit does not hold (this project's own).
pub fn written_are_new_nodes()
    ensures new { WrittenAreNew }
{}

/// A law: once a commit's calls were made, each fresh node was given to the disk, clean nodes are backed still, and
/// what the last commit holds stands as it stood (this project's own).
pub fn fresh_are_flushed()
    ensures flushed { FreshAreFlushed }
{}
