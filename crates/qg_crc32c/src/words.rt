//! The division of a text by words of eight bytes: each byte of a word is looked up alone.
ghost use Rattle.std.specs.Prelude.{◌≡◌, [], ◌∷◌};
ghost use Rattle.qg_crc32c.specs.Crc32c.{remainder};

use crate::byte_tables::AFTER;

/// The register after the bytes.
pub(crate) fn after_words(mut register: u32, bytes: &[u8]) -> u32
    ensures { result ≡ remainder register bytes.now }
{
    let (words, end) = bytes.as_chunks::<8>();
    for word in words {
        register = after_word(register, *word);
    }
    for byte in end {
        register = after_byte(register, *byte);
    }
    register
}

/// The register after eight bytes. Those that the register meets, the first four, are looked up last.
fn after_word(register: u32, word: [u8; 8]) -> u32
    ensures { result ≡ remainder register word }
{
    let word = register as u64 ^ u64::from_le_bytes(word);
    let mut result = 0;
    for (place, table) in AFTER.iter().enumerate() {
        result ^= table[(word >> (56 - 8 * place)) as usize % 256];
    }
    result
}

fn after_byte(register: u32, byte: u8) -> u32
    ensures { result ≡ remainder register (byte ∷ []) }
{
    AFTER[0][(register ^ byte as u32) as usize % 256] ^ (register >> 8)
}
