// What a crash leaves of the two superblocks while a commit writes them.
ghost use Rattle.qg_crashes.specs.Repairing.{KeepsWhatCounts};
ghost use Rattle.qg_crashes.specs.Superblocks.{LeavesAValidOne, LeavesTheNew, LeavesTheOld, LeavesOldOrNew};

/// A law on a crash at any moment of a commit, however far that came, where a torn superblock does not match its
/// checksum by chance (this project's own):
///
/// - one of the two places is valid, where the second one was before;
/// - where both places held one superblock and the commit's has a greater generation, the one that counts is one of
///   the two: until the write of the first place begins the old one, and once its sync has returned the new one.
pub fn two_places_leave_a_valid_one()
    ensures valid { LeavesAValidOne }
    ensures chosen { LeavesOldOrNew }
    ensures old { LeavesTheOld }
    ensures new { LeavesTheNew }
{}

/// A law: where the superblock that counts stands at one place, and is written at the other and made sure of, as
/// opening an image does, it counts at any moment of that, under the same premise (this project's own).
pub fn a_repair_keeps_what_counts()
    ensures { KeepsWhatCounts }
{}
