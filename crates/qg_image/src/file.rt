use qg_num::{Generation, Ino, Pieces, Sequence};

/// A file (on-disk format, INODE_ITEM and EXTENT_DATA).
#[derive(Drop)]
pub struct File {
    /// Its size in bytes.
    pub size: u64,
    /// The generation in which it was made.
    pub generation: Generation,
    /// The generation of its last change.
    pub transid: Generation,
    /// Its pieces, ascending by position.
    pub pieces: Pieces,
}

/// Files by number, ascending.
pub type FileList = Sequence<(Ino, File)>;
