// Items of the root tree.
ghost use Rattle.std.specs.Prelude.{◌≡◌, length, IfSome};
ghost use Rattle.qg_items.specs.ItemText.{root_text};
ghost use Rattle.qg_items.specs.ItemReading.{root_read};

use qg_num::{Address, Generation, is_zero, put_u32, put_u64, put_zeros, u32_at, u64_at};

/// The bytes of a ROOT_ITEM body (on-disk format, ROOT_ITEM).
pub const ROOT_ITEM_BYTES: usize = 439;

/// A tree (on-disk format, ROOT_ITEM).
#[derive(Clone, Copy, PartialEq, Eq)]
pub struct RootItem {
    /// The generation of the root node.
    pub generation: Generation,
    /// The address of the root node, in bytes.
    pub bytenr: Address,
    /// The generation of the commit that last made a snapshot of the tree or made it by one, else 0.
    pub last_snapshot: Generation,
    /// 1.
    pub refs: u32,
    /// The level of the root node.
    pub level: u8,
}

/// Reads a ROOT_ITEM body: nothing where the length isn't 439 or a byte of no field isn't 0 (on-disk format,
/// ROOT_ITEM).
#[tactic(auto, unfolding(crate::specs::ItemReading::root_read))]
pub fn read_root(bytes: &[u8]) -> Option<RootItem>
    ensures exact { result ≡ root_read bytes.now }
    ensures spelled { IfSome result (λ root. bytes.now ≡ root_text root) }
{
    if bytes.len() != ROOT_ITEM_BYTES
        || !is_zero(bytes, 0, 160)
        || !is_zero(bytes, 168, 176)
        || !is_zero(bytes, 184, 200)
        || !is_zero(bytes, 208, 216)
        || !is_zero(bytes, 220, 238)
        || !is_zero(bytes, 239, ROOT_ITEM_BYTES)
    {
        return None;
    }
    Some(RootItem {
        generation: Generation::new(u64_at(bytes, 160)),
        bytenr: Address::new(u64_at(bytes, 176)),
        last_snapshot: Generation::new(u64_at(bytes, 200)),
        refs: u32_at(bytes, 216),
        level: bytes[238],
    })
}

/// Writes a ROOT_ITEM body, the bytes of no field 0 (on-disk format, ROOT_ITEM).
pub fn write_root(root: &RootItem, bytes: &mut [u8])
    requires { length bytes.old ≡ ROOT_ITEM_BYTES }
    ensures { bytes.new ≡ root_text root.now }
{
    put_zeros(bytes, 0, ROOT_ITEM_BYTES);
    put_u64(bytes, 160, root.generation.value());
    put_u64(bytes, 176, root.bytenr.value());
    put_u64(bytes, 200, root.last_snapshot.value());
    put_u32(bytes, 216, root.refs);
    bytes[238] = root.level;
}
