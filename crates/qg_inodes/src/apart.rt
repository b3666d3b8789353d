// Which lists of pieces may be edited.
ghost use Rattle.std.specs.Prelude.{◌≡◌, ◌↔◌, ℕ, ◌^◌, ◌<◌, ◌≤◌, IsTrue};
ghost use Rattle.qg_image.specs.FilesOf.{are_pieces, largest_size};
ghost use Rattle.qg_files.specs.Apart.{AreApart, IsWithinSizes};
ghost use Rattle.qg_inodes.specs.Judged.{IsJudged};

use crate::item::unfit;
use qg_num::{BlockFault, Piece, Pieces};
use qg_tree_items::LARGEST_SIZE;
use qg_tree_read::Tree;

/// The pieces that were read, where they may be edited. Those of a file may.
pub(crate) fn judged(tree: &Tree, pieces: Pieces) -> Result<Pieces, BlockFault>
    ensures { IsJudged tree.now pieces result }
{
    if are_apart(pieces.as_slice()) {
        Ok(pieces)
    } else {
        Err(unfit(tree))
    }
}

// Whether pieces ascend, overlap nowhere, and each may be edited.
fn are_apart(pieces: &[Piece]) -> bool
    ensures apart { IsTrue result → AreApart pieces.now }
    ensures every { (size : ℕ) → size ≤ largest_size → IsTrue (are_pieces 0 size pieces.now) → IsTrue result }
{
    let mut end = 0;
    for piece in pieces {
        if piece.position < end || !is_within_sizes(*piece) {
            return false;
        }
        end = piece.position + piece.len;
    }
    true
}

// Whether one piece may be edited, by itself.
fn is_within_sizes(piece: Piece) -> bool
    ensures within { IsTrue result ↔ IsWithinSizes piece }
    ensures fits { piece.extent_bytes < 2 ^ 64 }
{
    0 < piece.len
        && piece.position <= LARGEST_SIZE
        && piece.len <= LARGEST_SIZE - piece.position
        && piece.offset <= u64::MAX - piece.len
}
