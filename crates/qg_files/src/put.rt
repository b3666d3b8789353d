// A piece is put where nothing is.
ghost use Rattle.std.specs.Prelude.{◌≡◌, ◌∷◌, [], OnOk, OnErr};
ghost use Rattle.qg_image.specs.FilesOf.{piece_end};
ghost use Rattle.qg_machine.specs.FileChange.{pieces_meeting, with_range};
ghost use Rattle.qg_files.specs.Apart.{AreApart, IsWithinSizes};

use crate::search::first_past;
use qg_num::{NoMemory, Piece, Pieces};

/// Puts a piece where the file has nothing (this project's own). Where memory is refused, the list stays as it was.
pub fn put_piece(pieces: &mut Pieces, piece: Piece) -> Result<(), NoMemory>
    requires apart { AreApart pieces.old }
    requires within { IsWithinSizes piece }
    requires hole { pieces_meeting piece.position (piece_end piece) pieces.old ≡ 0 }
    ensures ok { OnOk result (pieces.new
        ≡ with_range piece.position (piece_end piece) (piece ∷ []) pieces.old) }
    ensures err { OnErr result (pieces.new ≡ pieces.old) }
    ensures apart { AreApart pieces.new }
{
    let index = first_past(pieces, piece.position);
    pieces.insert(index, piece)?;
    Ok(())
}
