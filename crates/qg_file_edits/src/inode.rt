use qg_items::InodeItem;

/// An edit of a file's INODE_ITEM (this project's own).
#[derive(Clone, Copy, PartialEq, Eq)]
pub enum InodeEdit {
    /// It comes where none is.
    Insert(InodeItem),
    /// It comes in the place of the one that is there.
    Replace(InodeItem),
    /// It goes.
    Remove,
}
