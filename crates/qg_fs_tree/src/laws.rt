// What is the same of a tree that stands.
ghost use Rattle.qg_fs_tree.specs.Laws.{SlotsAddUp, SlotsOfNames, SlotsStay, StandsInAnotherOrder, StandsLow};

/// A law: a tree that stands with some names stands with them in another order (this project's own).
pub fn names_in_another_order()
    ensures { StandsInAnotherOrder }
{}

/// A law: a tree that stands, and whose items take less than three nodes hold, has one level above its leaves at most
/// (this project's own).
pub fn few_bytes_stand_low()
    ensures { StandsLow }
{}

/// A law: slots that were not taken before add up over changes (this project's own).
pub fn new_slots_add_up()
    ensures sum { SlotsAddUp }
    ensures none { SlotsStay }
    ensures named { SlotsOfNames }
{}
