// Pieces of one file that stand in a row.
ghost use Rattle.std.specs.Prelude.{◌+◌, ◌≤◌};
ghost use Rattle.qg_image.specs.FilesOf.{largest_size};

use crate::{LARGEST_SIZE, is_between};
use qg_num::{Ino, Piece};

/// Pieces of one file that stand in a row and overlap nowhere (this project's own). All but the file are in bytes.
#[derive(Clone, Copy)]
pub(crate) struct PieceRun {
    /// The file.
    pub(crate) ino: Ino,
    /// Where the first piece begins.
    pub(crate) begin: u64,
    /// Where the last piece ends.
    pub(crate) end: u64,
    /// The sum of their lengths.
    pub(crate) bytes: u64,
    ghost within: { begin + bytes ≤ end },
    ghost least: { end ≤ largest_size },
}

impl PieceRun {
    ghost use Rattle.std.specs.Prelude.{List, [], ◌∷◌, ◌++◌};
    ghost use Rattle.qg_image.specs.declared.part.FilePart.{FilePart};
    ghost use Rattle.qg_image.specs.declared.part.FilePart.TheVariants.{PieceOf};
    ghost use Rattle.qg_tree_items.specs.Rows.{IsRun, IsToldOf};

    /// One piece; none where no sound file has it.
    pub(crate) fn of(ino: Ino, piece: &Piece) -> Option<PieceRun>
        ensures { IsToldOf IsRun result (PieceOf ino piece.now ∷ []) }
    {
        if is_between(0, LARGEST_SIZE, piece) {
            Some(PieceRun {
                ino,
                begin: piece.position,
                end: piece.position + piece.len,
                bytes: piece.len,
            })
        } else {
            None
        }
    }

    /// The run, and behind it another; none where no sound file has both.
    pub(crate) fn joined(&self, behind: &PieceRun) -> Option<PieceRun>
        ensures { (front rest : List FilePart) → IsRun self.now front → IsRun behind.now rest
            → IsToldOf IsRun result (front ++ rest) }
    {
        if self.ino == behind.ino && self.end <= behind.begin {
            Some(PieceRun {
                ino: self.ino,
                begin: self.begin,
                end: behind.end,
                bytes: self.bytes + behind.bytes,
            })
        } else {
            None
        }
    }
}
