// Bodies of a file's items.
ghost use Rattle.std.specs.Prelude.{◌≡◌};
ghost use Rattle.qg_items.specs.ItemText.{extent_data_text, inode_text};
ghost use Rattle.qg_root_items.specs.Written.{extent_data_of};

use qg_items::{
    EXTENT_DATA_BYTES, ExtentData, INODE_ITEM_BYTES, InodeItem, write_extent_data, write_inode,
};
use qg_num::Piece;

/// The bytes of an INODE_ITEM.
pub(crate) fn inode_bytes(inode: &InodeItem) -> [u8; INODE_ITEM_BYTES]
    ensures { result ≡ inode_text inode.now }
{
    let mut bytes = [0; INODE_ITEM_BYTES];
    write_inode(inode, &mut bytes);
    bytes
}

/// The bytes of a piece's EXTENT_DATA. The extent's length stands in it twice.
pub(crate) fn piece_bytes(piece: &Piece) -> [u8; EXTENT_DATA_BYTES]
    ensures { result ≡ extent_data_text (extent_data_of piece.now) }
{
    let told = ExtentData {
        generation: piece.stamp,
        ram_bytes: piece.extent_bytes,
        disk_bytenr: piece.extent,
        disk_num_bytes: piece.extent_bytes,
        offset: piece.offset,
        num_bytes: piece.len,
    };
    let mut bytes = [0; EXTENT_DATA_BYTES];
    write_extent_data(&told, &mut bytes);
    bytes
}
