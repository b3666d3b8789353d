// A decimal in one form.
ghost use Rattle.std.specs.Prelude.{◌≡◌, ◌^◌, ◌<◌, ◌↔◌, ℕ, IfSome, IfNone, IsTrue};
ghost use Rattle.std.specs.Fmt.{decimal};

use itoa::Buffer;

/// Whether the text is the number's one text.
pub(crate) fn is_text_of(number: u64, text: &str) -> bool
    ensures { IsTrue result ↔ (text.now ≡ decimal number) }
{
    let mut buffer = Buffer::new();
    buffer.format(number) == text
}

/// The number whose digits these are: one to twenty of them, with no sign and no leading zero, below 2^64; `None`
/// exactly where the text is no such number's (this project's own).
pub fn decimal_of(text: &str) -> Option<u64>
    ensures found { IfSome result (λ n. text.now ≡ decimal n) }
    ensures none { IfNone result ((n : ℕ) → n < 2 ^ 64 → text.now ≡ decimal n → ⊥) }
{
    let Ok(n) = text.parse::<u64>() else {
        return None;
    };
    if is_text_of(n, text) { Some(n) } else { None }
}
