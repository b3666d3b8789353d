// Items of the extent tree.
ghost use Rattle.std.specs.Prelude.{◌≡◌, length, IfSome};
ghost use Rattle.qg_items.specs.ItemText.{extent_text, data_ref_text, shared_data_ref_text};
ghost use Rattle.qg_items.specs.ItemReading.{extent_read, data_ref_read, shared_data_ref_read};

use qg_num::{Address, Generation, Ino, RootId, put_u32, put_u64, u32_at, u64_at};

/// The bytes of an EXTENT_ITEM or METADATA_ITEM body (on-disk format, EXTENT_ITEM).
pub const EXTENT_ITEM_BYTES: usize = 24;

/// The bytes of an EXTENT_DATA_REF body (on-disk format, EXTENT_DATA_REF).
pub const EXTENT_DATA_REF_BYTES: usize = 28;

/// The bytes of a SHARED_DATA_REF body (on-disk format, SHARED_DATA_REF).
pub const SHARED_DATA_REF_BYTES: usize = 4;

/// A data extent or a node (on-disk format, EXTENT_ITEM and METADATA_ITEM).
#[derive(Clone, Copy, PartialEq, Eq)]
pub struct ExtentItem {
    /// The sum of the counts of its references.
    pub refs: u64,
    /// The generation in which it was written.
    pub generation: Generation,
    /// DATA 1, TREE_BLOCK 2, FULL_BACKREF 256.
    pub flags: u64,
}

/// A keyed reference to a data extent (on-disk format, EXTENT_DATA_REF).
#[derive(Clone, Copy, PartialEq, Eq)]
pub struct ExtentDataRef {
    /// The tree.
    pub root: RootId,
    /// The file.
    pub objectid: Ino,
    /// The position of the piece less its offset in the extent, modulo 2^64, in bytes.
    pub offset: u64,
    /// How many pieces it stands for.
    pub count: u32,
}

/// A shared reference to a data extent (on-disk format, SHARED_DATA_REF).
#[derive(Clone, Copy, PartialEq, Eq)]
pub struct SharedDataRef {
    /// How many pieces it stands for.
    pub count: u32,
}

/// A reference to a node or to a data extent (on-disk format, "backreferences").
#[derive(Clone, Copy, PartialEq, Eq)]
pub enum Reference {
    /// From a node that this tree owns, or from the tree's root.
    KeyedBlock { root: RootId },
    /// From the node at this address, in bytes.
    SharedBlock { parent: Address },
    /// From pieces of a file in leaves that this tree owns; the offset is a position less an offset, modulo 2^64, in
    /// bytes.
    KeyedData { root: RootId, ino: Ino, offset: u64 },
    /// From pieces in the leaf at this address, in bytes.
    SharedData { parent: Address },
}

/// Reads an EXTENT_ITEM or METADATA_ITEM body: nothing where the length isn't 24 (on-disk format, EXTENT_ITEM).
#[tactic(auto, unfolding(crate::specs::ItemReading::extent_read))]
pub fn read_extent(bytes: &[u8]) -> Option<ExtentItem>
    ensures exact { result ≡ extent_read bytes.now }
    ensures spelled { IfSome result (λ extent. bytes.now ≡ extent_text extent) }
{
    if bytes.len() != EXTENT_ITEM_BYTES {
        return None;
    }
    Some(ExtentItem {
        refs: u64_at(bytes, 0),
        generation: Generation::new(u64_at(bytes, 8)),
        flags: u64_at(bytes, 16),
    })
}

/// Writes an EXTENT_ITEM or METADATA_ITEM body (on-disk format, EXTENT_ITEM).
pub fn write_extent(extent: &ExtentItem, bytes: &mut [u8])
    requires { length bytes.old ≡ EXTENT_ITEM_BYTES }
    ensures { bytes.new ≡ extent_text extent.now }
{
    put_u64(bytes, 0, extent.refs);
    put_u64(bytes, 8, extent.generation.value());
    put_u64(bytes, 16, extent.flags);
}

/// Reads an EXTENT_DATA_REF body: nothing where the length isn't 28 (on-disk format, EXTENT_DATA_REF).
#[tactic(auto, unfolding(crate::specs::ItemReading::data_ref_read))]
pub fn read_data_ref(bytes: &[u8]) -> Option<ExtentDataRef>
    ensures exact { result ≡ data_ref_read bytes.now }
    ensures spelled { IfSome result (λ reference. bytes.now ≡ data_ref_text reference) }
{
    if bytes.len() != EXTENT_DATA_REF_BYTES {
        return None;
    }
    Some(ExtentDataRef {
        root: RootId::new(u64_at(bytes, 0)),
        objectid: Ino::new(u64_at(bytes, 8)),
        offset: u64_at(bytes, 16),
        count: u32_at(bytes, 24),
    })
}

/// Writes an EXTENT_DATA_REF body (on-disk format, EXTENT_DATA_REF).
pub fn write_data_ref(reference: &ExtentDataRef, bytes: &mut [u8])
    requires { length bytes.old ≡ EXTENT_DATA_REF_BYTES }
    ensures { bytes.new ≡ data_ref_text reference.now }
{
    put_u64(bytes, 0, reference.root.value());
    put_u64(bytes, 8, reference.objectid.value());
    put_u64(bytes, 16, reference.offset);
    put_u32(bytes, 24, reference.count);
}

/// Reads a SHARED_DATA_REF body: nothing where the length isn't 4 (on-disk format, SHARED_DATA_REF).
#[tactic(auto, unfolding(crate::specs::ItemReading::shared_data_ref_read))]
pub fn read_shared_data_ref(bytes: &[u8]) -> Option<SharedDataRef>
    ensures exact { result ≡ shared_data_ref_read bytes.now }
    ensures spelled { IfSome result (λ reference. bytes.now ≡ shared_data_ref_text reference) }
{
    if bytes.len() != SHARED_DATA_REF_BYTES {
        return None;
    }
    Some(SharedDataRef {
        count: u32_at(bytes, 0),
    })
}

/// Writes a SHARED_DATA_REF body (on-disk format, SHARED_DATA_REF).
pub fn write_shared_data_ref(reference: &SharedDataRef, bytes: &mut [u8])
    requires { length bytes.old ≡ SHARED_DATA_REF_BYTES }
    ensures { bytes.new ≡ shared_data_ref_text reference.now }
{
    put_u32(bytes, 0, reference.count);
}
