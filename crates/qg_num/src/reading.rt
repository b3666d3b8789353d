// Fields read at a place.
ghost use Rattle.std.specs.Prelude.{◌≡◌, ◌+◌, ◌≤◌, length};
ghost use Rattle.qg_num.specs.Fields.{u32_at, u64_at, is_zero};

use byteorder::{ByteOrder, LittleEndian};

/// The number in the four bytes from a place on, the lowest byte first (on-disk format, little-endian).
#[tactic(auto, unfolding(crate::specs::Fields::u32_at))]
pub fn u32_at(bytes: &[u8], place: usize) -> u32
    requires { place + 4 ≤ length bytes.now }
    ensures { result ≡ u32_at place bytes.now }
{
    LittleEndian::read_u32(&bytes[place..])
}

/// The number in the eight bytes from a place on, the lowest byte first (on-disk format, little-endian).
#[tactic(auto, unfolding(crate::specs::Fields::u64_at))]
pub fn u64_at(bytes: &[u8], place: usize) -> u64
    requires { place + 8 ≤ length bytes.now }
    ensures { result ≡ u64_at place bytes.now }
{
    LittleEndian::read_u64(&bytes[place..])
}

/// Whether the bytes from one place to another are all 0 (this project's own).
pub fn is_zero(bytes: &[u8], from: usize, to: usize) -> bool
    requires order { from ≤ to }
    requires within { to ≤ length bytes.now }
    ensures { result ≡ is_zero from to bytes.now }
{
    bytes[from..to].iter().fold(0, |all, byte| all | *byte) == 0
}
