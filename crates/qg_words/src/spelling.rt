// The one text of each form.
ghost use Rattle.std.specs.Prelude.{◌≡◌, ◌↔◌, [], ◌∷◌, IsTrue, string_bytes};
ghost use Rattle.std.specs.List.{list_any};
ghost use Rattle.qg_words.specs.Words.{AskFor, AskForImage, AskForLines, begins_with_hyphen, texts};

use crate::Form;
use crate::number::is_text_of;

/// Whether a text is this one.
pub(crate) fn is_text(text: &str, wanted: &str) -> bool
    ensures { IsTrue result ↔ (text.now ≡ wanted.now) }
{
    text == wanted
}

// Whether a word begins with `-`.
fn is_option(word: &str) -> bool
    ensures { result ≡ begins_with_hyphen word.now }
{
    word.starts_with('-')
}

/// Whether one of the words begins with `-`.
pub(crate) fn has_option(words: &[String]) -> bool
    ensures { result ≡ list_any (λ word. begins_with_hyphen (string_bytes word)) words.now }
{
    for word in words {
        if is_option(word.as_str()) {
            return true;
        }
    }
    false
}

// Whether there is one word, and it is this.
fn is_word(words: &[String], name: &str) -> bool
    ensures { IsTrue result ↔ (texts words.now ≡ name.now ∷ []) }
{
    match words {
        [word] => is_text(word.as_str(), name),
        _ => false,
    }
}

// Whether the words are `mkfs` and these sizes.
fn are_mkfs_words(words: &[String], nodesize: u64, slots: u64, sectors: u64) -> bool
    ensures { IsTrue result ↔ AskForImage (texts words.now)
        (record { nodesize = nodesize; slots = slots; sectors = sectors }) }
{
    match words {
        [name, first, second, third] => {
            is_text(name.as_str(), "mkfs")
                & is_text_of(nodesize, first.as_str())
                & is_text_of(slots, second.as_str())
                & is_text_of(sectors, third.as_str())
        }
        _ => false,
    }
}

// Whether the words are `gen`, a seed and a count.
fn are_generate_words(words: &[String], seed: u64, count: u64) -> bool
    ensures { IsTrue result ↔ AskForLines (texts words.now) seed count }
{
    match words {
        [name, first, second] => {
            is_text(name.as_str(), "gen")
                & is_text_of(seed, first.as_str())
                & is_text_of(count, second.as_str())
        }
        _ => false,
    }
}

/// Whether the words are those of the form.
pub(crate) fn is_spelled(words: &[String], form: Form) -> bool
    ensures { IsTrue result ↔ AskFor (texts words.now) form }
{
    match form {
        Form::Mkfs(sizes) => are_mkfs_words(words, sizes.nodesize, sizes.slots, sizes.sectors),
        Form::Run => is_word(words, "run"),
        Form::Check => is_word(words, "check"),
        Form::Generate { seed, count } => are_generate_words(words, seed, count),
    }
}
