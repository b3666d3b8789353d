// The words of replies, each behind a space.
ghost use Rattle.std.specs.Prelude.{◌≡◌};
ghost use Rattle.std.specs.Fmt.{decimal};
ghost use Rattle.qg_grammar.specs.ScriptText.{then_number, then_word, group_text, then_group, which_text, maximum_text};
ghost use Rattle.qg_script.specs.Added.{Adds};

use crate::Text;
use itoa::Buffer;
use qg_num::{GroupId, NoMemory, Which};

/// Adds a number in decimal.
pub(crate) fn write_decimal(number: u64, text: &mut Text) -> Result<(), NoMemory>
    ensures { Adds result text.old text.new (decimal number) }
{
    let mut buffer = Buffer::new();
    text.add(buffer.format(number).as_bytes())
}

/// Adds a word behind a space.
pub(crate) fn write_word(word: &[u8], text: &mut Text) -> Result<(), NoMemory>
    ensures { Adds result text.old text.new (then_word word.now) }
{
    text.add(b" ")?;
    text.add(word)
}

/// Adds a number behind a space.
pub(crate) fn write_number(number: u64, text: &mut Text) -> Result<(), NoMemory>
    ensures { Adds result text.old text.new (then_number number) }
{
    text.add(b" ")?;
    write_decimal(number, text)
}

/// Adds a group, as its level and its id.
pub(crate) fn write_group(group: GroupId, text: &mut Text) -> Result<(), NoMemory>
    ensures { Adds result text.old text.new (group_text group) }
{
    write_decimal(group.level(), text)?;
    text.add(b"/")?;
    write_decimal(group.id(), text)
}

/// Adds a group behind a space.
pub(crate) fn write_next_group(group: GroupId, text: &mut Text) -> Result<(), NoMemory>
    ensures { Adds result text.old text.new (then_group group) }
{
    text.add(b" ")?;
    write_group(group, text)
}

/// Adds a limit in bytes, or that there is none, behind a space.
pub(crate) fn write_limit(max: Option<u64>, text: &mut Text) -> Result<(), NoMemory>
    ensures { Adds result text.old text.new (then_word (maximum_text max)) }
{
    match max {
        Some(max) => write_number(max, text),
        None => write_word(b"none", text),
    }
}

/// The word for a counter or its limit.
pub(crate) fn which_word(which: Which) -> &'static [u8]
    ensures { result.now ≡ which_text which }
{
    match which {
        Which::Rfer => b"rfer",
        Which::Excl => b"excl",
    }
}
