// What state an image stands for that a crash left.
ghost use Rattle.qg_crashes.specs.StoredCounters.{StandsCounted};
ghost use Rattle.qg_crashes.specs.Outcomes.{ChainSurvives, OpeningSurvives, RunSurvives};
ghost use Rattle.qg_crashes.specs.Reading.{ReadsWhatIsHeld};
ghost use Rattle.qg_crashes.specs.States.{
  LeavesEitherState,
  LeavesTheNewState,
  LeavesTheOldState,
  MirrorsTheNewState,
  RepairLeavesTheState,
  RepairMirrors,
};

/// A law: an image stands for the state that another one stands for, where the same superblock counts, and what stands
/// at each address at which the state holds a node is what stands there in the other one (this project's own).
pub fn only_what_is_held_is_read()
    ensures { ReadsWhatIsHeld }
{}

/// A law on a crash at any moment of a commit that writes no node where the old state holds one, however far that came,
/// where a torn superblock does not match its checksum by chance (this project's own): what it leaves stands for the
/// old state or for the new one. Until the write of the first place begins it is the old one, and once its sync has
/// returned the new one. Once the whole commit is done, both places hold its superblock.
pub fn a_crash_leaves_the_old_state_or_the_new_one()
    ensures either { LeavesEitherState }
    ensures old { LeavesTheOldState }
    ensures new { LeavesTheNewState }
    ensures mirrors { MirrorsTheNewState }
{}

/// A law: at any moment of a repair of a stale place, what a crash leaves stands for the state that the disk stood for,
/// under the same premise, so the repair may be done again. Once it is whole, both places hold the superblock that
/// counts (this project's own).
pub fn a_repair_leaves_the_state()
    ensures leaves { RepairLeavesTheState }
    ensures mirrors { RepairMirrors }
{}

/// A law on commits that came one behind the other, each but the last whole: whatever a crash leaves since they began
/// stands for the state of one of them, or for that of before, and for none that is older than one of which the first
/// superblock place was made sure of by then. So it is of opening, since its first sync, and of commits behind the
/// repair of a stale place (this project's own).
pub fn a_crash_leaves_one_of_the_commits()
    ensures commits { ChainSurvives }
    ensures opening { OpeningSurvives }
    ensures run { RunSurvives }
{}

/// A law: in each state that an image stands for, the stored counters of each group are its direct counts (this
/// project's own). So they are after a crash.
pub fn what_stands_is_counted()
    ensures { StandsCounted }
{}
