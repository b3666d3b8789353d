// What the rule on a subvolume's files asks of a piece.
ghost use Rattle.std.specs.Prelude.{◌≡◌};
ghost use Rattle.qg_image.specs.FilesOf.{is_aligned, is_piece};
ghost use Rattle.qg_tree_items.specs.Files.{is_between};

use qg_num::Piece;
use qg_super::SECTOR;

/// The largest size of a file, in bytes (this project's own).
pub const LARGEST_SIZE: u64 = 1 << 40;

/// The least number of a file (this project's own).
pub const LEAST_INODE: u64 = 257;

/// The first number past those of files (this project's own).
pub const INODES_END: u64 = 1 << 48;

/// Whether a piece is sound, begins no earlier than at a position and ends by the size, both in bytes.
pub fn is_between(from: u64, size: u64, piece: &Piece) -> bool
    ensures { result ≡ is_between from size piece.now }
{
    from <= piece.position
        && is_piece(piece)
        && piece.position <= size
        && piece.len <= size - piece.position
}

/// Whether a piece is of whole sectors and lies in its extent.
#[tactic(auto, unfolding(qg_image::specs::FilesOf::is_piece))]
pub fn is_piece(piece: &Piece) -> bool
    ensures { result ≡ is_piece piece.now }
{
    is_aligned(piece.position)
        && is_aligned(piece.len)
        && 0 < piece.len
        && is_aligned(piece.offset)
        && is_aligned(piece.extent_bytes)
        && piece.offset <= piece.extent_bytes
        && piece.len <= piece.extent_bytes - piece.offset
}

/// Whether bytes are whole sectors.
pub fn is_aligned(bytes: u64) -> bool
    ensures { result ≡ is_aligned bytes }
{
    bytes % SECTOR == 0
}
