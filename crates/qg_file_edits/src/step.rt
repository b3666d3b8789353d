use qg_num::Piece;

/// One edit of a file's items, at one position (this project's own).
#[derive(Clone, Copy, PartialEq, Eq)]
pub enum Step {
    /// The piece at a position, in bytes, goes.
    Remove(u64),
    /// A piece comes where none is.
    Insert(Piece),
    /// A piece comes in the place of the one at its position.
    Replace(Piece),
}
