// What is said of an image that is not sound.
ghost use Rattle.std.specs.Prelude.{◌≡◌};
ghost use Rattle.qg_grammar.specs.FailureText.{rule_text, broken_text, differs_text};
ghost use Rattle.qg_script.specs.Added.{Adds};

use crate::Text;
use crate::words::{which_word, write_next_group, write_number, write_word};
use qg_num::{Address, GroupId, NoMemory, Rule, Which};

// The name of a rule.
#[tactic(auto, unfolding(qg_grammar::specs::FailureText::rule_text))]
fn rule_word(rule: Rule) -> &'static [u8]
    ensures { result.now ≡ rule_text rule }
{
    match rule {
        Rule::Super => b"super",
        Rule::Length => b"length",
        Rule::Mirror => b"mirror",
        Rule::Slot => b"slot",
        Rule::Csum => b"csum",
        Rule::Place => b"place",
        Rule::Level => b"level",
        Rule::Empty => b"empty",
        Rule::Bounds => b"bounds",
        Rule::Order => b"order",
        Rule::Slack => b"slack",
        Rule::Depth => b"depth",
        Rule::Owner => b"owner",
        Rule::Gen => b"gen",
        Rule::Range => b"range",
        Rule::Shape => b"shape",
        Rule::Item => b"item",
        Rule::Root => b"root",
        Rule::Quota => b"quota",
        Rule::Limits => b"limits",
        Rule::File => b"file",
        Rule::Space => b"space",
        Rule::Refs => b"refs",
        Rule::Home => b"home",
    }
}

/// Adds the line that says that a rule is broken at an address, in bytes (this project's own).
pub fn write_broken(rule: Rule, address: Address, text: &mut Text) -> Result<(), NoMemory>
    ensures { Adds result text.old text.new (broken_text rule address) }
{
    text.add(b"broken")?;
    write_word(rule_word(rule), text)?;
    write_number(address.value(), text)?;
    text.add(b"\n")
}

/// Adds the line that says that a group's stored counter is not the direct count, both in bytes (this project's own).
pub fn write_differs(
    group: GroupId,
    which: Which,
    stored: u64,
    counted: u64,
    text: &mut Text,
) -> Result<(), NoMemory>
    ensures { Adds result text.old text.new (differs_text group which stored counted) }
{
    text.add(b"differs")?;
    write_next_group(group, text)?;
    write_word(which_word(which), text)?;
    write_number(stored, text)?;
    write_number(counted, text)?;
    text.add(b"\n")
}
