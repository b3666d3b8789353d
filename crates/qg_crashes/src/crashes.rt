// What a crash may leave of a disk, and which write was the last.
ghost use Rattle.qg_crashes.specs.Crashes.{IsOfWholePlace, StaysLeft};
ghost use Rattle.qg_crashes.specs.Later.{PremiseFromLater};
ghost use Rattle.qg_crashes.specs.Premise.{HoldsTheNew, MeetsThePremise};
ghost use Rattle.qg_crashes.specs.Unwritten.{SparedStays};

/// A law: what a crash may leave of a disk it may still leave after one event more, unless that is a sync. So a crash
/// in the midst of a call leaves nothing that it may not leave right after it (this project's own).
pub fn moments_between_calls()
    ensures { StaysLeft }
{}

/// A law: bytes that no write and no cut since a sync has touched stand in any image that a crash may leave (this
/// project's own).
pub fn what_is_not_written_stays()
    ensures { SparedStays }
{}

/// A law: right after a write of a whole place, done or failed, the old bytes of the place are those that it held
/// before, and the new ones are those of the write (this project's own).
pub fn last_write_to_a_place()
    ensures { IsOfWholePlace }
{}

/// A law: where each write since a moment was done, a disk holds at a place the new bytes of the last write to it since
/// then. So what it holds meets the premise that a torn superblock does not match its checksum by chance (this
/// project's own).
pub fn what_is_held_is_no_chance()
    ensures holds { HoldsTheNew }
    ensures premise { MeetsThePremise }
{}

/// A law: writes and syncs came behind a sync of a disk that reaches past both superblock places. Where no superblock
/// that was torn since some earlier moment matches its checksum by chance, none does that was torn since the sync (this
/// project's own).
pub fn the_premise_from_a_later_moment()
    ensures { PremiseFromLater }
{}
