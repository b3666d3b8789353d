// Items of a subvolume's tree.
ghost use Rattle.std.specs.Prelude.{◌≡◌, length, IfSome};
ghost use Rattle.qg_items.specs.ItemText.{inode_text, extent_data_text};
ghost use Rattle.qg_items.specs.ItemReading.{inode_read, extent_data_read};

use qg_num::{Address, Generation, is_zero, put_u64, put_zeros, u64_at};

/// The bytes of an INODE_ITEM body (on-disk format, INODE_ITEM).
pub const INODE_ITEM_BYTES: usize = 160;

/// The bytes of an EXTENT_DATA body (on-disk format, EXTENT_DATA).
pub const EXTENT_DATA_BYTES: usize = 53;

// The type of a piece whose bytes are in a data extent.
const REGULAR: u8 = 1;

/// A file (on-disk format, INODE_ITEM). Sizes are in bytes.
#[derive(Clone, Copy, PartialEq, Eq)]
pub struct InodeItem {
    /// The generation in which the file was made.
    pub generation: Generation,
    /// The generation in which it was last changed.
    pub transid: Generation,
    /// Its size.
    pub size: u64,
    /// The sum of the lengths of its pieces.
    pub nbytes: u64,
}

/// A piece of a file (on-disk format, EXTENT_DATA, a regular extent). All but the generation are in bytes.
#[derive(Clone, Copy, PartialEq, Eq)]
pub struct ExtentData {
    /// The generation in which the extent was written.
    pub generation: Generation,
    /// The extent's length once it is decoded, which is its length.
    pub ram_bytes: u64,
    /// The extent's address.
    pub disk_bytenr: Address,
    /// The extent's length.
    pub disk_num_bytes: u64,
    /// Where the piece begins in the extent.
    pub offset: u64,
    /// The piece's length.
    pub num_bytes: u64,
}

/// Reads an INODE_ITEM body: nothing where the length isn't 160 or one of the last 128 bytes isn't 0 (on-disk format,
/// INODE_ITEM).
#[tactic(auto, unfolding(crate::specs::ItemReading::inode_read))]
pub fn read_inode(bytes: &[u8]) -> Option<InodeItem>
    ensures exact { result ≡ inode_read bytes.now }
    ensures spelled { IfSome result (λ inode. bytes.now ≡ inode_text inode) }
{
    if bytes.len() != INODE_ITEM_BYTES || !is_zero(bytes, 32, INODE_ITEM_BYTES) {
        return None;
    }
    Some(InodeItem {
        generation: Generation::new(u64_at(bytes, 0)),
        transid: Generation::new(u64_at(bytes, 8)),
        size: u64_at(bytes, 16),
        nbytes: u64_at(bytes, 24),
    })
}

/// Writes an INODE_ITEM body, its last 128 bytes 0 (on-disk format, INODE_ITEM).
pub fn write_inode(inode: &InodeItem, bytes: &mut [u8])
    requires { length bytes.old ≡ INODE_ITEM_BYTES }
    ensures { bytes.new ≡ inode_text inode.now }
{
    put_u64(bytes, 0, inode.generation.value());
    put_u64(bytes, 8, inode.transid.value());
    put_u64(bytes, 16, inode.size);
    put_u64(bytes, 24, inode.nbytes);
    put_zeros(bytes, 32, 128);
}

/// Reads an EXTENT_DATA body: nothing where the length isn't 53, the type isn't 1 (regular), or the compression, the
/// encryption or the other encoding isn't 0 (on-disk format, EXTENT_DATA).
#[tactic(auto, unfolding(crate::specs::ItemReading::extent_data_read))]
pub fn read_extent_data(bytes: &[u8]) -> Option<ExtentData>
    ensures exact { result ≡ extent_data_read bytes.now }
    ensures spelled { IfSome result (λ piece. bytes.now ≡ extent_data_text piece) }
{
    if bytes.len() != EXTENT_DATA_BYTES || !is_zero(bytes, 16, 20) || bytes[20] != REGULAR {
        return None;
    }
    Some(ExtentData {
        generation: Generation::new(u64_at(bytes, 0)),
        ram_bytes: u64_at(bytes, 8),
        disk_bytenr: Address::new(u64_at(bytes, 21)),
        disk_num_bytes: u64_at(bytes, 29),
        offset: u64_at(bytes, 37),
        num_bytes: u64_at(bytes, 45),
    })
}

/// Writes an EXTENT_DATA body of type 1 (regular) with no compression, encryption or other encoding (on-disk format,
/// EXTENT_DATA).
pub fn write_extent_data(piece: &ExtentData, bytes: &mut [u8])
    requires { length bytes.old ≡ EXTENT_DATA_BYTES }
    ensures { bytes.new ≡ extent_data_text piece.now }
{
    put_u64(bytes, 0, piece.generation.value());
    put_u64(bytes, 8, piece.ram_bytes);
    put_zeros(bytes, 16, 4);
    bytes[20] = REGULAR;
    put_u64(bytes, 21, piece.disk_bytenr.value());
    put_u64(bytes, 29, piece.disk_num_bytes);
    put_u64(bytes, 37, piece.offset);
    put_u64(bytes, 45, piece.num_bytes);
}
