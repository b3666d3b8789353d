/// What becomes of the references of a node that a subvolume copies in order to edit it (this project's own).
#[derive(Clone, Copy, PartialEq, Eq)]
pub enum Edits {
    /// Each child gets a shared reference with the old node as parent, which becomes full; the copy takes over the
    /// keyed ones.
    ShareOld,
    /// Each child gets a keyed reference of the subvolume; the old node stays as it is.
    AddKeyed,
    /// Each child gets a keyed reference of the subvolume and loses the shared one of the old node, which goes.
    TurnKeyed,
    /// The copy takes over the references of the old node, which goes.
    TakeOver,
}

/// What becomes of a node that a subvolume no longer reaches (this project's own).
#[derive(Clone, Copy, PartialEq, Eq)]
pub enum Leaving {
    /// The node goes, and its children lose what it owed.
    Goes,
    /// The node becomes full, and its keyed references on children become shared ones.
    TurnsFull,
    /// The node stays as it is.
    Stays,
}
