// What a file command leaves for the next commit.
ghost use Rattle.qg_file_edits.specs.Laws.{CommandLeavesRoom};

/// A law: a file command that finds the slots free that it needs leaves those free that a commit may want (this
/// project's own).
pub fn commands_leave_room()
    ensures { CommandLeavesRoom }
{}
