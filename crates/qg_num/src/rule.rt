/// The rule that an image breaks, in the order in which a walk looks at them (on-disk format; the choice is this
/// project's own).
#[derive(Clone, Copy, Debug, PartialEq, Eq)]
pub enum Rule {
    /// Neither place holds a superblock.
    Super,
    /// The image is shorter than its superblock says.
    Length,
    /// Both superblocks are of one generation and differ.
    Mirror,
    /// The address is not that of a node slot.
    Slot,
    /// The checksum is not that of the bytes.
    Csum,
    /// The header names another address.
    Place,
    /// The level is greater than 7.
    Level,
    /// A node above the leaves has no pointer.
    Empty,
    /// Item headers, bodies or pointers do not fit or do not lie where they should.
    Bounds,
    /// Keys do not ascend strictly.
    Order,
    /// A byte that should be 0 is not.
    Slack,
    /// The level is not the one that the parent or the ROOT_ITEM tells.
    Depth,
    /// The owner is none that a node of this tree may have.
    Owner,
    /// The generation is not the one that the pointer tells, or is out of range.
    Gen,
    /// A key lies outside the range that the pointers above tell.
    Range,
    /// The node is too empty.
    Shape,
    /// An item is none that this tree may hold.
    Item,
    /// A ROOT_ITEM is missing or is one too many.
    Root,
    /// The quota items do not fit each other.
    Quota,
    /// There are more subvolumes, groups or relations than are served.
    Limits,
    /// The items of a file do not fit each other.
    File,
    /// Extents overlap, or lie outside the data area.
    Space,
    /// The extent tree does not record what is referenced.
    Refs,
    /// A node is not reached by its owner.
    Home,
}
