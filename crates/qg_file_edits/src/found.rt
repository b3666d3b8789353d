use qg_items::InodeItem;
use qg_num::Pieces;

/// What was read of a file before it is edited (this project's own).
#[derive(Drop)]
pub struct Found {
    /// Its INODE_ITEM; none where there is no such file.
    pub inode: Option<InodeItem>,
    /// Those of its pieces that the edit may change.
    pub met: Pieces,
}
