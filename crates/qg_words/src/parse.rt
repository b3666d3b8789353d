// The words as `clap` reads them.
ghost use Rattle.std.specs.Prelude.{◌≡◌, ℕ, IfOk, Some};
ghost use Rattle.clap.specs.Matches.{found_of};
ghost use Rattle.clap.specs.Walk.{rows_of};
ghost use Rattle.clap.specs.Simple.{subcommand_rows_of};
ghost use Rattle.qg_super.specs.declared.sizes.Sizes.{Sizes};
ghost use Rattle.qg_words.specs.declared.form.Form.{Form};
ghost use Rattle.qg_words.specs.Command.{Tell, TellNumber, TellSizes, TellsForm};
ghost use Rattle.qg_words.specs.Words.{AskFor, texts};

use crate::Form;
use crate::command::command_line;
use crate::spelling::is_text;
use clap::ArgMatches;
use clap::error::ErrorKind;
use qg_super::Sizes;
use std::alloc::{AllocError, Global};

// The number that was found under a name. A form's numbers are all required; 0 stands for one that isn't there.
fn number_of(matches: &ArgMatches<'_>, name: &str) -> u64
    ensures { (number : ℕ) → TellNumber (rows_of (found_of matches.now)) name.now number → result ≡ number }
{
    matches.get_one::<u64>(name).unwrap_or(0)
}

// The sizes that were found.
fn sizes_of(matches: &ArgMatches<'_>) -> Sizes
    ensures { (sizes : Sizes) → TellSizes (rows_of (found_of matches.now)) sizes → result ≡ sizes }
{
    Sizes {
        nodesize: number_of(matches, "NODESIZE"),
        slots: number_of(matches, "SLOTS"),
        sectors: number_of(matches, "SECTORS"),
    }
}

// The form of a subcommand, with the numbers that were found.
fn form_named(name: &str, matches: &ArgMatches<'_>) -> Form
    ensures { (form : Form) → Tell name.now (rows_of (found_of matches.now)) form → result ≡ form }
{
    if is_text(name, "run") {
        return Form::Run;
    }
    if is_text(name, "check") {
        return Form::Check;
    }
    if is_text(name, "gen") {
        let seed = number_of(matches, "SEED");
        let count = number_of(matches, "COUNT");
        return Form::Generate { seed, count };
    }
    Form::Mkfs(sizes_of(matches))
}

// The form of the subcommand that was met.
fn form_of(matches: &ArgMatches<'_>) -> Option<Form>
    ensures { (form : Form) → TellsForm (subcommand_rows_of matches.now) form → result ≡ Some form }
{
    match matches.subcommand() {
        Some((name, numbers)) => Some(form_named(name, numbers)),
        None => None,
    }
}

/// The form that `clap` reads in the words: the one that they ask for, where they do. Of other words it may read some
/// form too.
pub(crate) fn parse(alloc: Global, words: &[String]) -> Result<Option<Form>, AllocError>
    ensures { IfOk result (λ read. (form : Form) → AskFor (texts words.now) form → read ≡ Some form) }
{
    let command = command_line(alloc)?;
    match command.try_get_matches_from(words) {
        Ok(matches) => Ok(form_of(&matches)),
        Err(error) => match error.kind() {
            ErrorKind::OutOfMemory => Err(AllocError),
            _ => Ok(None),
        },
    }
}
