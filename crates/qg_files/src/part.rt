// Parts of one piece.
ghost use Rattle.std.specs.Prelude.{◌≡◌, nat_le};
ghost use Rattle.std.specs.Option.{option_and_then};
ghost use Rattle.qg_image.specs.FilesOf.{piece_end};
ghost use Rattle.qg_machine.specs.FileChange as change;
ghost use Rattle.qg_files.specs.Apart.{IsWithinSizes};

use qg_num::Piece;

/// Whether a piece ends at or before a position.
pub(crate) fn ends_by(piece: &Piece, position: u64) -> bool
    ensures { result ≡ nat_le (piece_end piece.now) position }
{
    piece.position <= position && piece.len <= position - piece.position
}

/// The part of a piece in front of a position.
pub(crate) fn part_before(piece: Piece, to: u64) -> Option<Piece>
    ensures { result ≡ change.part_before to piece }
{
    if piece.position < to {
        Some(Piece {
            len: piece.len.min(to - piece.position),
            ..piece
        })
    } else {
        None
    }
}

/// The part of a piece from a position on. The extent that it names stays whole.
pub(crate) fn part_after(piece: Piece, from: u64) -> Option<Piece>
    requires { IsWithinSizes piece }
    ensures { result ≡ change.part_after from piece }
{
    let end = piece.position + piece.len;
    if from < end {
        let position = from.max(piece.position);
        Some(Piece {
            position,
            len: end - position,
            offset: piece.offset + (position - piece.position),
            ..piece
        })
    } else {
        None
    }
}

/// The part of a piece in a range.
pub(crate) fn part_within(piece: Piece, from: u64, to: u64) -> Option<Piece>
    requires { IsWithinSizes piece }
    ensures { result ≡ option_and_then (change.part_before to) (change.part_after from piece) }
{
    part_before(part_after(piece, from)?, to)
}
