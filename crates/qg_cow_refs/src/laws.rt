// What a copy, and what leaving a node, does to what is owed.
ghost use Rattle.qg_cow_refs.specs.Copying.{CopyTurnsOwed, CopyLeavesOld};
ghost use Rattle.qg_cow_refs.specs.Left.{LeavingTurnsOwed, LeavingLeaves};

/// A law: what is gained and lost in each case of a copy turns what was owed before into what is owed after, and the
/// old node stays exactly where another reference is left, full where it was or where the subvolume that copied it had
/// made it.
pub fn copying_turns_what_is_owed()
    ensures owed { CopyTurnsOwed }
    ensures old { CopyLeavesOld }
{}

/// A law: what is gained and lost where a node is left turns what it owed into what it owes then, and it stays exactly
/// where a reference is left, full where it was or where the subvolume that left it had made it.
pub fn leaving_turns_what_is_owed()
    ensures owed { LeavingTurnsOwed }
    ensures left { LeavingLeaves }
{}
