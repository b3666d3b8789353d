// What a state's extent tree takes.
ghost use Rattle.qg_weighed.specs.Laws.{FreshCounts, SaidIsRecorded, TakesNoLess, Weighs};

/// A law: where a book counts what a state's layout owes and knows what is there, and another says what the last commit
/// holds of the extent tree, all that this commit holds or one now would hold takes what both take, and what the items
/// of the root and quota trees take (this project's own). The first does so in an image that is just made; the other
/// where the last commit's items say what its items say. Both take no less than the first alone.
pub fn weight_law()
    ensures fresh { FreshCounts }
    ensures recorded { SaidIsRecorded }
    ensures weighs { Weighs }
    ensures least { TakesNoLess }
{}
