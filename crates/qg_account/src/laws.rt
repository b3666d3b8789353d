// What counters become by changes of owners.
ghost use Rattle.qg_account.specs.Laws.{ChangesAddUp, ChangesCanBeTaken, GroupsAddUp, OneListHasOneSize};
ghost use Rattle.qg_account.specs.Laws.{CountedInOrder, OnlyGroupsAbove, OthersKeepTheirs, SameOwnersAddUp};
ghost use Rattle.qg_account.specs.Laws.{StoredAreCounted};
ghost use Rattle.qg_account.specs.TraceLaws.{EditKeepsTrace, TouchKeepsTrace, TraceBegins, TraceCounts};
ghost use Rattle.qg_account.specs.TraceLaws.{EditsChangeGainsAndLosses, TraceTellsChanges};
ghost use Rattle.qg_account.specs.Snapshots.{SnapshotIsAChange};
ghost use Rattle.qg_account.specs.Deletions.{DeletionIsAChange};

/// A law: where changes list each address whose owners differ, once, the direct counts of the layout before become
/// those of the layout now by moving them along all changes, in whatever order; and on the way each counter can give
/// and take what is asked of it (btrfs-qgroup(8), "referenced" and "exclusive"). Changes with the same owners may be
/// made as one.
pub fn changes_add_up()
    ensures counts { ChangesAddUp }
    ensures groups { GroupsAddUp }
    ensures taken { ChangesCanBeTaken }
    ensures sizes { OneListHasOneSize }
    ensures owners { SameOwnersAddUp }
{}

/// A law: where a state's groups store the counters that are due, those that `stored_counters` gives are their direct
/// counts; and direct counts under the groups' numbers tell in their order what a commit is to store.
pub fn stored_are_counted()
    ensures stored { StoredAreCounted }
    ensures order { CountedInOrder }
{}

/// A law: a change of owners moves no counter of a group that none of its pivots is a member of, so of none that isn't
/// above one of them.
pub fn others_keep_theirs()
    ensures members { OthersKeepTheirs }
    ensures above { OnlyGroupsAbove }
{}

/// A law: where each address is touched before its owners change, its entry has those of the last commit, and the
/// changes that a trace tells are all that differ from the last commit to now. So the counters of the last commit,
/// moved along them, are the direct counts now. A file command changes the owners of what its subvolume gains or loses
/// alone.
pub fn traces_tell_changes()
    ensures begins { TraceBegins }
    ensures touched { TouchKeepsTrace }
    ensures edited { EditKeepsTrace }
    ensures tells { TraceTellsChanges }
    ensures counts { TraceCounts }
    ensures edits { EditsChangeGainsAndLosses }
{}

/// A law: a snapshot changes the owners of its own root and of what lies below its source's, and of nothing else; a
/// deletion those of what the subvolume reached.
pub fn snapshots_and_deletions_are_changes()
    ensures snapshot { SnapshotIsAChange }
    ensures deletion { DeletionIsAChange }
{}
