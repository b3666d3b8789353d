// The words and numbers of a line, read from its front.
ghost use Rattle.std.specs.Prelude.{ℕ, ◌&&◌, List, IfSome, IfNone, IsTrue};
ghost use Rattle.std.specs.Option.{SomeIff};
ghost use Rattle.qg_grammar.specs.ScriptText.{is_sub_word, is_ino_word};
ghost use Rattle.qg_script.specs.Reading.{IsParted, IsNextNumber, AreNumbers};

use qg_num::{Ino, RootId};
use qg_words::decimal_of;
use std::str::from_utf8;

/// The least number of a file.
const LEAST_INODE: u64 = 257;

/// What the numbers of subvolumes and files lie below.
const NUMBERS_END: u64 = 1 << 48;

/// The bytes up to the first space, and those from it on.
pub(crate) fn first_word(bytes: &[u8]) -> (&[u8], &[u8])
    ensures { IsParted bytes.now result.0.now result.1.now }
{
    for (place, byte) in bytes.iter().enumerate() {
        if *byte == b' ' {
            return bytes.split_at(place);
        }
    }
    (bytes, &[])
}

/// The number behind a space, and what is behind it.
pub(crate) fn next_number(text: &[u8]) -> Option<(u64, &[u8])>
    ensures found { IfSome result (λ found. IsNextNumber text.now found.0 found.1.now) }
    ensures none { IfNone result ((number : ℕ) (rest : List ℕ) → IsNextNumber text.now number rest → ⊥) }
{
    let [b' ', text @ ..] = text else {
        return None;
    };
    let (word, rest) = first_word(text);
    let Ok(word) = from_utf8(word) else {
        return None;
    };
    let number = decimal_of(word)?;
    Some((number, rest))
}

/// The numbers of a text, each behind a space; `None` exactly where it isn't that of so many.
pub(crate) fn numbers<const N: usize>(text: &[u8]) -> Option<[u64; N]>
    ensures found { IfSome result (λ numbers. AreNumbers N text.now numbers) }
    ensures none { IfNone result ((numbers : List ℕ) → AreNumbers N text.now numbers → ⊥) }
{
    let mut numbers = [0; N];
    let mut rest = text;
    for place in 0..N {
        let (number, behind) = next_number(rest)?;
        numbers[place] = number;
        rest = behind;
    }
    if rest.is_empty() { Some(numbers) } else { None }
}

/// A subvolume by its number; `None` exactly where no line may have this.
pub(crate) fn sub_of(sub: u64) -> Option<RootId>
    ensures { SomeIff result (IsTrue (is_sub_word sub)) sub }
{
    if sub < NUMBERS_END {
        Some(RootId::new(sub))
    } else {
        None
    }
}

/// A file by the numbers of its subvolume and itself; `None` exactly where no line may have these.
pub(crate) fn file_of(sub: u64, ino: u64) -> Option<(RootId, Ino)>
    ensures { SomeIff result (IsTrue (is_sub_word sub && is_ino_word ino)) (sub, ino) }
{
    if sub < NUMBERS_END && LEAST_INODE <= ino && ino < NUMBERS_END {
        Some((RootId::new(sub), Ino::new(ino)))
    } else {
        None
    }
}
