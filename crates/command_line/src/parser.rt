// The parser for words that have a reading.
ghost use Rattle.std.specs.Prelude.{◌≡◌, true, is_some, IfOk, IfErr};
ghost use Rattle.clap.specs.Words.{app_of, found_of, kind_of as error_kind, with_rule};
ghost use Rattle.command_line.specs.OptionName.{kind_of};
ghost use Rattle.command_line.specs.Words.{asked};
ghost use Rattle.command_line.specs.Parser.{Finds, action_as, bare, command_rule, parser, with_option};

use crate::option_name::{OptionKind, OptionName, kind_of, name_of};
use crate::words::options;
use clap::error::ErrorKind;
use clap::{Arg, ArgAction, ArgMatches, Command, Error};
use plan_types::Text;
use std::alloc::{AllocError, Global};

/// Parses words that have a reading: finds the value of each option that is given, and whether each flag is given.
pub fn parsed<'a>(alloc: Global, words: &'a [Text]) -> Result<ArgMatches<'a>, Error>
    requires { is_some (asked words.now) ≡ true }
    ensures values { IfOk result (λ matches. Finds words.entry.now (found_of matches)) }
    ensures no_memory { IfErr result (λ error. error_kind error ≡ ErrorKind.OutOfMemory) }
{
    let command = parser(alloc)?;
    command.try_get_matches_from(words)
}

fn parser<'a>(alloc: Global) -> Result<Command<'a>, AllocError>
    ensures { IfOk result (λ command. app_of command ≡ parser) }
{
    let mut command = with_command(alloc, bare(alloc))?;
    for option in options() {
        command = with_option(alloc, command, option)?;
    }
    Ok(command)
}

fn bare<'a>(alloc: Global) -> Command<'a>
    ensures { app_of result ≡ bare }
{
    Command::new(alloc, "cabal-plan")
        .no_binary_name(true)
        .disable_help_flag(true)
        .disable_version_flag(true)
}

fn with_command<'a>(alloc: Global, command: Command<'a>) -> Result<Command<'a>, AllocError>
    ensures { IfOk result (λ more. app_of more ≡ with_rule (app_of command.entry) command_rule) }
{
    let arg = Arg::new(alloc, "command")
        .required(true)
        .action(ArgAction::Set);
    command.arg(arg)
}

fn with_option<'a>(
    alloc: Global,
    command: Command<'a>,
    option: OptionName,
) -> Result<Command<'a>, AllocError>
    ensures { IfOk result (λ more. app_of more ≡ with_option (app_of command.entry) option) }
{
    let name = name_of(option);
    let arg = Arg::new(alloc, name).long(name).action(action_of(option));
    command.arg(arg)
}

fn action_of(option: OptionName) -> ArgAction
    ensures { result ≡ action_as (kind_of option) }
{
    match kind_of(option) {
        OptionKind::Valued => ArgAction::Set,
        OptionKind::Flag => ArgAction::SetTrue,
    }
}
