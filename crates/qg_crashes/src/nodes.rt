// What a crash leaves of slots while a commit writes nodes.
ghost use Rattle.qg_crashes.specs.Slots.{OtherSlotsStay, SlotsAreSettled, StaysAsLong, WritingCommits};

/// A law on a crash at any moment of a commit whose nodes lie in slots, however far that came (this project's own): it
/// is one of which `two_places_leave_a_valid_one` speaks; no image is shorter than the disk was; where no node is
/// written, what stands is what stood; and from the sync of the nodes on, what stands is what stands once the whole
/// commit is done.
pub fn slots_stay_or_are_settled()
    ensures commits { WritingCommits }
    ensures long { StaysAsLong }
    ensures stay { OtherSlotsStay }
    ensures settled { SlotsAreSettled }
{}
