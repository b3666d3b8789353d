// What changes of references make of the extent tree's weight.
ghost use Rattle.qg_tree_backrefs.specs.Laws.{AddsWeigh, BookWeighs, ChangesSum, DropsWeigh, ExchangesWeigh};
ghost use Rattle.qg_tree_backrefs.specs.Laws.{FollowsWeighs, StepWeighs};
ghost use Rattle.qg_tree_backrefs.specs.Need.{NeedCovers, NeedLeaves};

/// A law: whatever the last commit recorded, references that come make the extent tree's items heavier by no more than
/// what stands for them, and references that go make them no heavier (this project's own). So it is of what a tree
/// tells its book, where no misfit is met.
pub fn heavier_law()
    ensures adds { AddsWeigh }
    ensures drops { DropsWeigh }
    ensures exchanges { ExchangesWeigh }
    ensures step { StepWeighs }
    ensures follows { FollowsWeighs }
    ensures sums { ChangesSum }
    ensures weighs { BookWeighs }
{}

/// A law: a file command that finds the slots free that it needs leaves those free that a commit may want (this
/// project's own).
pub fn need_law()
    ensures covers { NeedCovers }
    ensures leaves { NeedLeaves }
{}
