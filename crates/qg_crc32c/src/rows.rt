//! The division of a text by rows of 32 bytes, all bytes of a row at once.
//!
//! A byte with 128 bytes of 0 behind it has the same remainder as four bytes, one at its own place in each of the
//! next four rows. So the first of five rows can go into the other four. What a byte comes to there is looked up by
//! its two halves, for sixteen bytes at a time.
ghost use Rattle.std.specs.Prelude.{◌≡◌, ◌++◌, length, map, take, drop};
ghost use Rattle.qg_crc32c.specs.Crc32c.{remainder};
ghost use Rattle.qg_crc32c.specs.Rows.{IsRow, by_halves, row_of_register};

use crate::words::after_words;
use std::marker::Model;
use std::simd::prelude::*;

/// The bytes of four rows.
pub(crate) const FRONT: usize = 128;

// What the low and the high half of a byte of the first row come to in the second. Each table stands there twice,
// since the lanes of half a row look up nothing but that half of a table.
const SECOND_LOW: [u8; 32] = [
    0, 81, 187, 234, 75, 26, 240, 161, 135, 214, 60, 109, 204, 157, 119, 38, 0, 81, 187, 234, 75,
    26, 240, 161, 135, 214, 60, 109, 204, 157, 119, 38,
];

const SECOND_HIGH: [u8; 32] = [
    0, 128, 53, 181, 115, 243, 70, 198, 85, 213, 96, 224, 38, 166, 19, 147, 0, 128, 53, 181, 115,
    243, 70, 198, 85, 213, 96, 224, 38, 166, 19, 147,
];

// The same in the third row.
const THIRD_LOW: [u8; 32] = [
    0, 218, 215, 13, 187, 97, 108, 182, 56, 226, 239, 53, 131, 89, 84, 142, 0, 218, 215, 13, 187,
    97, 108, 182, 56, 226, 239, 53, 131, 89, 84, 142,
];

const THIRD_HIGH: [u8; 32] = [
    0, 233, 234, 3, 183, 94, 93, 180, 226, 11, 8, 225, 85, 188, 191, 86, 0, 233, 234, 3, 183, 94,
    93, 180, 226, 11, 8, 225, 85, 188, 191, 86,
];

// The same in the fourth row.
const FOURTH_LOW: [u8; 32] = [
    0, 190, 79, 241, 250, 68, 181, 11, 16, 174, 95, 225, 234, 84, 165, 27, 0, 190, 79, 241, 250,
    68, 181, 11, 16, 174, 95, 225, 234, 84, 165, 27,
];

const FOURTH_HIGH: [u8; 32] = [
    0, 28, 139, 151, 37, 57, 174, 178, 18, 14, 153, 133, 55, 43, 188, 160, 0, 28, 139, 151, 37, 57,
    174, 178, 18, 14, 153, 133, 55, 43, 188, 160,
];

// The same in the row behind the fourth.
const NEXT_LOW: [u8; 32] = [
    0, 70, 141, 203, 242, 180, 127, 57, 158, 216, 19, 85, 108, 42, 225, 167, 0, 70, 141, 203, 242,
    180, 127, 57, 158, 216, 19, 85, 108, 42, 225, 167,
];

const NEXT_HIGH: [u8; 32] = [
    0, 75, 5, 78, 11, 64, 14, 69, 137, 194, 140, 199, 130, 201, 135, 204, 0, 75, 5, 78, 11, 64, 14,
    69, 137, 194, 140, 199, 130, 201, 135, 204,
];

/// Four rows whose remainder is that of all rows so far.
#[derive(Drop)]
pub(crate) struct Rows {
    first: u8x32,
    second: u8x32,
    third: u8x32,
    fourth: u8x32,
}

impl Model for Rows {
    ghost use Rattle.std.specs.Prelude.{List, ℕ, ◌++◌};
    ghost use Rattle.qg_crc32c.specs.Rows.{IsRow};

    ghost Value = { List ℕ };

    ghost view = { λ rows. rows.first ++ (rows.second ++ (rows.third ++ rows.fourth)) };

    ghost invariant = { λ rows. IsRow rows.first × IsRow rows.second × IsRow rows.third × IsRow rows.fourth };
}

impl Rows {
    /// The first four rows of a text, the register laid over their first bytes.
    pub(crate) fn begin(register: u32, front: &[u8]) -> Rows
        requires { length front.now ≡ 128 }
        ensures { remainder 0 result ≡ remainder register front.now }
    {
        Rows {
            first: register_row(register) ^ u8x32::from_slice(front),
            second: u8x32::from_slice(&front[32..]),
            third: u8x32::from_slice(&front[64..]),
            fourth: u8x32::from_slice(&front[96..]),
        }
    }

    /// Takes one more row: the first goes into the four after it.
    #[inline(always)]
    pub(crate) fn with_row(self, row: &[u8; 32]) -> Rows
        ensures { remainder 0 result ≡ remainder 0 (self ++ row.now) }
    {
        let Rows {
            first,
            second,
            third,
            fourth,
        } = self;
        Rows {
            first: second ^ moved(first, SECOND_LOW, SECOND_HIGH),
            second: third ^ moved(first, THIRD_LOW, THIRD_HIGH),
            third: fourth ^ moved(first, FOURTH_LOW, FOURTH_HIGH),
            fourth: u8x32::from_array(*row) ^ moved(first, NEXT_LOW, NEXT_HIGH),
        }
    }

    /// The remainder of the rows.
    pub(crate) fn register(self) -> u32
        ensures { result ≡ remainder 0 self }
    {
        let register = after_words(0, &self.first.to_array());
        let register = after_words(register, &self.second.to_array());
        let register = after_words(register, &self.third.to_array());
        after_words(register, &self.fourth.to_array())
    }
}

/// A row that lays the register over the first bytes of another.
fn register_row(register: u32) -> u8x32
    ensures { result ≡ row_of_register register }
{
    let mut bytes = [0; 32];
    bytes[..4].copy_from_slice(&register.to_le_bytes());
    u8x32::from_array(bytes)
}

/// What each byte of a row comes to, by the tables of its two halves.
#[inline(always)]
fn moved(row: u8x32, low: [u8; 32], high: [u8; 32]) -> u8x32
    requires low_twice { drop 16 low ≡ take 16 low }
    requires high_twice { drop 16 high ≡ take 16 high }
    ensures bytes { result ≡ map (by_halves low high) row }
    ensures row { IsRow result }
{
    let by_low = u8x32::from_array(low).swizzle_dyn_within::<16>(row & u8x32::splat(15));
    let by_high = u8x32::from_array(high).swizzle_dyn_within::<16>(row >> u8x32::splat(4));
    by_low ^ by_high
}
