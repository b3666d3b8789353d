// The last file of a row.
ghost use Rattle.std.specs.Prelude.{◌≤◌};
ghost use Rattle.qg_image.specs.FilesOf.{largest_size};

use crate::run::PieceRun;
use crate::{INODES_END, LARGEST_SIZE, LEAST_INODE, is_aligned};
use qg_items::InodeItem;
use qg_num::Ino;

/// An INODE_ITEM, and what pieces of its file are known to stand behind it; more may follow (this project's own). All
/// but the file are in bytes.
#[derive(Clone, Copy)]
pub(crate) struct LastFile {
    /// The file.
    pub(crate) ino: Ino,
    /// Its size.
    pub(crate) size: u64,
    /// What its INODE_ITEM says that the lengths of its pieces sum to.
    pub(crate) nbytes: u64,
    /// Where the last piece ends; 0 where there is none.
    pub(crate) end: u64,
    /// The sum of the pieces' lengths.
    pub(crate) bytes: u64,
    ghost within: { bytes ≤ end },
    ghost least: { end ≤ largest_size },
}

impl LastFile {
    ghost use Rattle.std.specs.Prelude.{◌≡◌, List, [], ◌∷◌, ◌++◌};
    ghost use Rattle.qg_image.specs.declared.part.FilePart.{FilePart};
    ghost use Rattle.qg_image.specs.declared.part.FilePart.TheVariants.{Inode};
    ghost use Rattle.qg_image.specs.FilesOf.{are_files};
    ghost use Rattle.qg_tree_items.specs.Rows.{ArePieces, IsLast, IsToldOf};

    /// A file, of which no piece is known yet.
    pub(crate) fn of(ino: Ino, inode: &InodeItem) -> LastFile
        ensures { IsLast result (Inode ino inode.now ∷ []) }
    {
        LastFile {
            ino,
            size: inode.size,
            nbytes: inode.nbytes,
            end: 0,
            bytes: 0,
        }
    }

    /// The file, and behind it pieces; none where no sound file has both.
    pub(crate) fn joined(&self, behind: &Option<PieceRun>) -> Option<LastFile>
        ensures { (front rest : List FilePart) → IsLast self.now front → ArePieces behind.now rest
            → IsToldOf IsLast result (front ++ rest) }
    {
        let Some(run) = behind else {
            return Some(*self);
        };
        if self.ino == run.ino && self.end <= run.begin {
            Some(LastFile {
                ino: self.ino,
                size: self.size,
                nbytes: self.nbytes,
                end: run.end,
                bytes: self.bytes + run.bytes,
            })
        } else {
            None
        }
    }

    /// Whether it is sound with these pieces alone.
    pub(crate) fn is_whole(&self) -> bool
        ensures { (parts : List FilePart) → IsLast self.now parts → result ≡ are_files parts }
    {
        LEAST_INODE <= self.ino.value()
            && self.ino.value() < INODES_END
            && is_aligned(self.size)
            && self.size <= LARGEST_SIZE
            && self.end <= self.size
            && self.nbytes == self.bytes
    }
}
