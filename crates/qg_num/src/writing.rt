// Fields written at a place.
ghost use Rattle.std.specs.Prelude.{◌≡◌, ◌+◌, ◌≤◌, ◌++◌, take, drop, length};
ghost use Rattle.qg_num.specs.Fields.{u32_bytes, u64_bytes, zeros};

use byteorder::{ByteOrder, LittleEndian};

/// Writes a number into the four bytes from a place on, the lowest byte first (on-disk format, little-endian).
#[tactic(auto, unfolding(crate::specs::Fields::u32_bytes))]
pub fn put_u32(bytes: &mut [u8], place: usize, number: u32)
    requires { place + 4 ≤ length bytes.old }
    ensures { bytes.new ≡ take place bytes.old ++ (u32_bytes number ++ drop (place + 4) bytes.old) }
{
    let (_, behind) = bytes.split_at_mut(place);
    LittleEndian::write_u32(behind, number);
}

/// Writes a number into the eight bytes from a place on, the lowest byte first (on-disk format, little-endian).
#[tactic(auto, unfolding(crate::specs::Fields::u64_bytes))]
pub fn put_u64(bytes: &mut [u8], place: usize, number: u64)
    requires { place + 8 ≤ length bytes.old }
    ensures { bytes.new ≡ take place bytes.old ++ (u64_bytes number ++ drop (place + 8) bytes.old) }
{
    let (_, behind) = bytes.split_at_mut(place);
    LittleEndian::write_u64(behind, number);
}

/// Writes bytes over as many others, from a place on (this project's own).
pub fn put_bytes(bytes: &mut [u8], place: usize, piece: &[u8])
    requires { place + length piece.now ≤ length bytes.old }
    ensures { bytes.new ≡ take place bytes.old ++ (piece.now ++ drop (place + length piece.now) bytes.old) }
{
    bytes[place..place + piece.len()].copy_from_slice(piece);
}

/// Writes 0 over so many bytes from a place on (this project's own).
pub fn put_zeros(bytes: &mut [u8], place: usize, count: usize)
    requires { place + count ≤ length bytes.old }
    ensures { bytes.new ≡ take place bytes.old ++ (zeros count ++ drop (place + count) bytes.old) }
{
    bytes[place..place + count].fill(0);
}
