// The key of an item, ordered by object, type and offset.
ghost use Rattle.std.specs.Prelude.{◌≡◌, ◌+◌, ◌≤◌, ◌++◌, take, drop, length};

use crate::{put_u64, u64_at};

/// The key of an item or of a pointer (on-disk format, "Key"). Keys are ordered by object, then by type, then by
/// offset.
#[derive(Clone, Copy, PartialEq, Eq, PartialOrd, Ord)]
pub struct Key {
    /// The number of an object, as a file's or a tree's, or an address in bytes.
    pub objectid: u64,
    /// The type of the item.
    pub kind: u8,
    /// What the type makes of it, as a position in bytes.
    pub offset: u64,
}

impl Key {
    ghost use Rattle.std.specs.Ordering.{is_lt};
    ghost use Rattle.qg_num.specs.Key.{key_at, key_bytes, key_cmp};

    /// The key whose 17 bytes these are (on-disk format, "Key").
    pub fn read(bytes: &[u8; 17]) -> Key
        ensures { key_bytes result ≡ bytes.now }
    {
        Key::read_at(bytes, 0)
    }

    /// Writes the key's 17 bytes (on-disk format, "Key").
    pub fn write(self, bytes: &mut [u8; 17])
        ensures { bytes.new ≡ key_bytes self }
    {
        self.write_at(bytes, 0);
    }

    /// The key whose 17 bytes stand at a place, in bytes.
    pub fn read_at(bytes: &[u8], place: usize) -> Key
        requires { place + 17 ≤ length bytes.now }
        ensures { result ≡ key_at place bytes.now }
    {
        Key {
            objectid: u64_at(bytes, place),
            kind: bytes[place + 8],
            offset: u64_at(bytes, place + 9),
        }
    }

    /// Writes the key's 17 bytes over others, from a place on, in bytes.
    pub fn write_at(self, bytes: &mut [u8], place: usize)
        requires { place + 17 ≤ length bytes.old }
        ensures { bytes.new ≡ take place bytes.old ++ (key_bytes self ++ drop (place + 17) bytes.old) }
    {
        put_u64(bytes, place, self.objectid);
        bytes[place + 8] = self.kind;
        put_u64(bytes, place + 9, self.offset);
    }

    /// Whether the key stands before another in their order (on-disk format, "Key").
    pub fn is_before(self, other: Key) -> bool
        ensures { result ≡ is_lt (key_cmp self other) }
    {
        self < other
    }
}
