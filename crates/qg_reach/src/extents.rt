// The data extents that files name.
ghost use Rattle.std.specs.Prelude.{◌≡◌};
ghost use Rattle.qg_image.specs.Reach.{extent_of};

use qg_image::Element;
use qg_num::Piece;

/// The extent that a piece names (on-disk format, EXTENT_DATA).
pub fn extent_of(piece: &Piece) -> Element
    ensures { result ≡ extent_of piece.now }
{
    Element {
        address: piece.extent,
        bytes: piece.extent_bytes,
    }
}
