// Slots that an edited tree takes.
ghost use Rattle.qg_tree_edits.specs.SlotLaws.{EditsKeepApart, HasFewNodes, TakesItsNodes};

/// A law: an edit of a tree that shares no node takes and gives slots of that tree alone. A tree has few nodes for what
/// its items take, and of free slots it takes no more than it has nodes (this project's own).
pub fn slot_laws()
    ensures apart { EditsKeepApart }
    ensures few { HasFewNodes }
    ensures takes { TakesItsNodes }
{}
