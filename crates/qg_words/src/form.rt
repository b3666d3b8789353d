// The forms of a command line.
ghost use Rattle.std.specs.Prelude.{IfOk, IfSome, IfNone};
ghost use Rattle.qg_words.specs.Words.{AskFor, HaveForm, texts};

use crate::parse::parse;
use crate::spelling::{has_option, is_spelled};
use qg_super::Sizes;
use std::alloc::{AllocError, Global};

/// What the words of a command line ask for (this project's own).
#[derive(Clone, Copy, PartialEq, Eq)]
pub enum Form {
    /// `mkfs NODESIZE SLOTS SECTORS`: a fresh image of these sizes.
    Mkfs(Sizes),
    /// `run`: the lines of a script are answered.
    Run,
    /// `check`: an image is judged.
    Check,
    /// `gen SEED COUNT`: the lines of the generator are answered.
    Generate { seed: u64, count: u64 },
}

/// What the words ask for: `mkfs NODESIZE SLOTS SECTORS`, `run`, `check` or `gen SEED COUNT`, each number a decimal
/// without sign or leading zeros, below 2^64; `None` exactly where the words have no form, and an error where memory is
/// refused (this project's own).
///
/// `clap` reads them, and more than these: a word that begins with `-` is refused before, and the text of what was read
/// is held against the words.
pub fn read_words(alloc: Global, words: &[String]) -> Result<Option<Form>, AllocError>
    ensures found { IfOk result (λ read. IfSome read (λ form. AskFor (texts words.now) form)) }
    ensures none { IfOk result (λ read. IfNone read (HaveForm (texts words.now) → ⊥)) }
{
    if has_option(words) {
        return Ok(None);
    }
    let read = parse(alloc, words)?;
    let Some(form) = read else {
        return Ok(None);
    };
    if is_spelled(words, form) {
        Ok(Some(form))
    } else {
        Ok(None)
    }
}
