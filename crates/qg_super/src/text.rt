// The text of a superblock, written and read.
ghost use Rattle.std.specs.Prelude.{◌≡◌, ◌⊎◌, ◌≤◌, length, IfSome, IsTrue};
ghost use Rattle.std.specs.Str.{bytes_eq};
ghost use Rattle.qg_super.specs.SuperText.{IsSuperText, covered_text, fields_at, is_super, super_read, super_text};

use crate::places::{FIRST_PLACE, SECOND_PLACE, SECTOR, SUPER_BYTES};
use crate::superblock::Super;
use qg_crc32c::crc32c;
use qg_num::{Address, Generation, put_bytes, put_u32, put_u64, put_zeros, u32_at, u64_at};

// What names the format.
const MAGIC: [u8; 8] = *b"QGRPIMG1";

// Where what the checksum covers begins, in bytes.
const COVERED: usize = 32;

// How many bytes it covers.
const COVERED_BYTES: usize = SUPER_BYTES - COVERED;

/// Writes the superblock's text for one of the two places (on-disk format, "superblock").
pub fn write_super(superblock: &Super, place: u64, bytes: &mut [u8])
    requires length { length bytes.old ≡ SUPER_BYTES }
    requires place { (place ≡ FIRST_PLACE) ⊎ (place ≡ SECOND_PLACE) }
    requires fields { IsTrue (is_super superblock.now) }
    ensures { bytes.new ≡ super_text place superblock.now }
{
    write_text(superblock, place, bytes);
}

// The same for any place.
#[tactic(auto, unfolding(crate::specs::SuperText::super_text))]
fn write_text(superblock: &Super, place: u64, bytes: &mut [u8])
    requires length { length bytes.old ≡ SUPER_BYTES }
    requires fields { IsTrue (is_super superblock.now) }
    ensures { bytes.new ≡ super_text place superblock.now }
{
    let (csum, covered) = bytes.split_at_mut(COVERED);
    write_covered(superblock, place, covered);
    put_zeros(csum, 0, COVERED);
    put_u32(csum, 0, crc32c(covered));
}

// Writes what the checksum covers. Offsets are those of the whole text.
#[tactic(auto, unfolding(crate::specs::SuperText::covered_text))]
fn write_covered(superblock: &Super, place: u64, covered: &mut [u8])
    requires length { length covered.old ≡ COVERED_BYTES }
    requires fields { IsTrue (is_super superblock.now) }
    ensures { covered.new ≡ covered_text place superblock.now }
{
    put_zeros(covered, 0, COVERED_BYTES);
    put_u64(covered, 48 - COVERED, place);
    put_bytes(covered, 64 - COVERED, &MAGIC);
    put_u64(covered, 72 - COVERED, superblock.generation.value());
    put_u64(covered, 80 - COVERED, superblock.root.value());
    put_u64(covered, 112 - COVERED, superblock.sizes().total_bytes());
    put_u32(covered, 144 - COVERED, SECTOR as u32);
    put_u32(covered, 148 - COVERED, superblock.nodesize);
    put_u64(covered, 2048 - COVERED, superblock.slots);
    put_u64(covered, 2056 - COVERED, superblock.sectors);
    put_u32(covered, 2064 - COVERED, superblock.format);
}

/// Reads a superblock at a place: nothing where the bytes aren't exactly the text of a superblock for that place
/// (on-disk format, "superblock").
#[tactic(auto, unfolding(crate::specs::SuperText::super_read))]
pub fn read_super(bytes: &[u8], place: u64) -> Option<Super>
    ensures exact { result ≡ super_read place bytes.now }
    ensures spelled { IfSome result (λ superblock. IsSuperText place bytes.now superblock) }
{
    if bytes.len() != SUPER_BYTES {
        return None;
    }
    let superblock = fields_at(bytes);
    if !superblock.is_super() || !is_text(&superblock, place, bytes) {
        return None;
    }
    Some(superblock)
}

// The fields, wherever the bytes come from.
fn fields_at(bytes: &[u8]) -> Super
    requires { SUPER_BYTES ≤ length bytes.now }
    ensures { result ≡ fields_at bytes.now }
{
    Super {
        generation: Generation::new(u64_at(bytes, 72)),
        root: Address::new(u64_at(bytes, 80)),
        nodesize: u32_at(bytes, 148),
        slots: u64_at(bytes, 2048),
        sectors: u64_at(bytes, 2056),
        format: u32_at(bytes, 2064),
    }
}

// Whether the bytes are the superblock's text for the place.
fn is_text(superblock: &Super, place: u64, bytes: &[u8]) -> bool
    requires { IsTrue (is_super superblock.now) }
    ensures { result ≡ bytes_eq bytes.now (super_text place superblock.now) }
{
    let mut text = [0; SUPER_BYTES];
    write_text(superblock, place, &mut text);
    bytes == text.as_slice()
}
