// The device calls of a commit, and those of opening, by what they do to a disk.
ghost use Rattle.qg_commit.specs.CallEvents.{CallsAreWhole, CallsWrite, OpeningRepairs};
ghost use Rattle.qg_commit.specs.CommitCalls.{CallsCommit, NewNodesStand, OtherNodesStay};

/// A law: the device calls of a commit whose nodes lie in slots, as far as they came, are the writes and syncs of which
/// `two_places_leave_a_valid_one` of qg_crashes speaks; so they are a commit of nodes in slots, and all of them do what
/// the whole commit does (this project's own).
pub fn the_calls_of_a_commit()
    ensures commits { CallsCommit }
    ensures writes { CallsWrite }
    ensures whole { CallsAreWhole }
{}

/// A law: where opening writes a stale place, as far as it came, that is a repair of which
/// `a_repair_keeps_what_counts` of qg_crashes speaks (this project's own).
pub fn the_calls_of_opening()
    ensures { OpeningRepairs }
{}

/// A law: what stands at an address at which a commit writes no node stands there in any image that a crash at a moment
/// of the commit may leave (this project's own).
pub fn other_nodes_stay()
    ensures { OtherNodesStay }
{}

/// A law: nodes that a commit wrote into slots of their own, and made sure of, are found there in any image that a
/// crash at a later moment of the commit may leave (this project's own).
pub fn new_nodes_stand()
    ensures { NewNodesStand }
{}
