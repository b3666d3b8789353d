use qg_items::Reference;

/// How often a reference is there in the book below, and how often it is there now (this project's own).
#[derive(Clone, Copy, PartialEq, Eq)]
pub struct Change {
    /// What it is from.
    pub reference: Reference,
    /// How often the book below has it.
    pub below: u32,
    /// How often it is there now.
    pub now: u32,
}

const _: () = prove!(size_of::<Change>() <= 48);
