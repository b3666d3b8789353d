/// Which of the trees of an image is meant (on-disk format, "B-tree").
#[derive(Clone, Copy, PartialEq, Eq)]
pub enum TreeKind {
    /// The root tree, tree 1.
    Roots,
    /// The extent tree, tree 2.
    Extents,
    /// The quota tree, tree 8.
    Quotas,
    /// That of a subvolume.
    Files,
}
