// The command line as `clap` is told of it.
ghost use Rattle.std.specs.Prelude.{◌≡◌, IfOk, false};
ghost use Rattle.clap.specs.Walk.{rule_of};
ghost use Rattle.qg_words.specs.Command.{ReadsAs, bare_app, generate_app, line_app, mkfs_app, number_rule};

use clap::{Arg, Command, value_parser};
use std::alloc::{AllocError, Global};

// A number that a form asks for.
fn number<'a>(alloc: Global, name: &'a str) -> Arg<'a>
    ensures rule { rule_of result ≡ number_rule name.entry.now }
    ensures local { result.global ≡ false }
{
    Arg::new(alloc, name)
        .required(true)
        .value_parser(value_parser!(u64))
}

// `mkfs NODESIZE SLOTS SECTORS`.
fn mkfs_form<'a>(alloc: Global) -> Result<Command<'a>, AllocError>
    ensures { IfOk result (ReadsAs mkfs_app) }
{
    Command::new(alloc, "mkfs")
        .arg(number(alloc, "NODESIZE"))?
        .arg(number(alloc, "SLOTS"))?
        .arg(number(alloc, "SECTORS"))
}

// `gen SEED COUNT`.
fn generate_form<'a>(alloc: Global) -> Result<Command<'a>, AllocError>
    ensures { IfOk result (ReadsAs generate_app) }
{
    Command::new(alloc, "gen")
        .arg(number(alloc, "SEED"))?
        .arg(number(alloc, "COUNT"))
}

// A command that is nothing without a subcommand, with neither help nor a version.
fn bare_command<'a>(alloc: Global) -> Command<'a>
    ensures { ReadsAs bare_app result }
{
    Command::new(alloc, "qgfs")
        .no_binary_name(true)
        .disable_help_flag(true)
        .disable_help_subcommand(true)
        .disable_version_flag(true)
        .subcommand_required(true)
}

/// The command whose subcommands are the forms.
pub(crate) fn command_line<'a>(alloc: Global) -> Result<Command<'a>, AllocError>
    ensures { IfOk result (ReadsAs line_app) }
{
    let mkfs = mkfs_form(alloc)?;
    let generate = generate_form(alloc)?;
    bare_command(alloc)
        .subcommand(mkfs)?
        .subcommand(Command::new(alloc, "run"))?
        .subcommand(Command::new(alloc, "check"))?
        .subcommand(generate)
}
