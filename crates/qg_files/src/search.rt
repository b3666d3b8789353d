// Where a range of a file falls among its pieces.
ghost use Rattle.std.specs.Prelude.{◌≤◌};
ghost use Rattle.qg_files.specs.Apart.{AreApart};
ghost use Rattle.qg_files.specs.Meeting.{IsFirstPast, IsFirstFrom, AreMeeting};

use crate::part::ends_by;
use qg_num::Pieces;

/// The index of the first piece that ends past a position, in bytes, or how many there are where none does.
pub(crate) fn first_past(pieces: &Pieces, position: u64) -> usize
    requires { AreApart pieces.now }
    ensures { IsFirstPast position pieces.now result }
{
    pieces
        .as_slice()
        .partition_point(|piece| ends_by(piece, position))
}

/// The index of the first piece that begins at a position, in bytes, or past it, or how many there are where none does.
fn first_from(pieces: &Pieces, position: u64) -> usize
    requires { AreApart pieces.now }
    ensures { IsFirstFrom position pieces.now result }
{
    pieces
        .as_slice()
        .partition_point(|piece| piece.position < position)
}

/// The first and the end of the indices of the pieces that a range of bytes meets.
pub(crate) fn meeting(pieces: &Pieces, from: u64, to: u64) -> (usize, usize)
    requires apart { AreApart pieces.now }
    requires order { from ≤ to }
    ensures { AreMeeting from to pieces.now result.0 result.1 }
{
    (first_past(pieces, from), first_from(pieces, to))
}
