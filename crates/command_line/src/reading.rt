// The reading of words: a command and its options.
ghost use Rattle.std.specs.Prelude.{◌≡◌, ◌≤◌, ℕ, List, IfOk, IfErr, IsErrOf, Some, None, [], true, false, is_some, unwrap_or};
ghost use Rattle.std.specs.Option.{option_and_then, option_copied, option_map_or};
ghost use Rattle.std.specs.Str.{str_to_ascii_lowercase};
ghost use Rattle.clap.specs.Words.{first_value, found_of};
ghost use Rattle.command_line.specs.declared.reading.WordsFault.TheVariants.{Usage, NoMemory as words_no_memory};
ghost use Rattle.command_line.specs.OptionName.{name_of};
ghost use Rattle.command_line.specs.Form.{compiler_digits, compiler_name, is_compiler, is_number, is_slot_count, is_version_text, number_in, parts_of};
ghost use Rattle.version_range.specs.Number.{limit_of};
ghost use Rattle.command_line.specs.Parser.{Finds};
ghost use Rattle.command_line.specs.Words.{asked};
ghost use Rattle.command_line.specs.Reading.{IsBounded, compiler_or, default_options, env_of, generate_of, is_true, command_with_options, options_of, places_of, plain_options, reading, replay_of, slots_or};

use crate::command_name::CommandName;
use crate::form::{cut_at_last_dash, number_in};
use crate::option_name::{OptionName, name_of};
use crate::parser::parsed;
use crate::words::asked;
use clap::ArgMatches;
use conditionals::system_of;
use plan_types::{Env, Limit, NoMemory, Places, Text, TextFault, Version};
use std::alloc::Global;
use thiserror::Error;
use version_range::{limit_of, read_version};

/// The options of a run, besides its folder.
#[derive(Debug, Drop)]
pub struct Options {
    pub places: Places,
    pub env: Env,
    /// The limit of the words, which overrides the project's.
    pub limit: Option<Limit>,
    /// Whether the output is JSON.
    pub json: bool,
    /// Whether the search picks the variable that was in the most conflict sets.
    pub count_conflicts: bool,
    /// Whether the conflict set is shrunk to a minimal one.
    pub minimize: bool,
}

/// A command with its options.
#[derive(Debug, Drop)]
pub enum Command {
    Plan(Options),
    /// Makes a folder of so many packages, from 1 to 2,000, and plans it.
    Generate {
        number: u32,
        limit: Limit,
    },
    /// Prints the plan as constraints of a project file.
    Freeze(Options),
    /// Replays a build of the plan, with so many slots, at the events of a file.
    Replay {
        options: Options,
        /// The path of the events' file, with names joined by `/`.
        events: Text,
        /// How many nodes may run at once, from 1 to 999.
        slots: u32,
    },
}

/// Why words give no command.
#[derive(Clone, Copy, Debug, PartialEq, Eq, Error)]
pub enum WordsFault {
    #[error("the words have no reading")]
    Usage,
    #[error("out of memory")]
    NoMemory,
}

impl From<NoMemory> for WordsFault {
    ghost from_gives = { λ _ fault. fault ≡ words_no_memory };

    fn from(_: NoMemory) -> Self {
        WordsFault::NoMemory
    }
}

/// Reads the words after the program's name.
pub fn read_words(alloc: Global, words: &[Text]) -> Result<Command, WordsFault>
    ensures command { IfOk result (λ command. reading words.now ≡ Some command) }
    ensures usage { IfErr result (λ fault. fault ≡ Usage → reading words.now ≡ None) }
    ensures no_reading { reading words.now ≡ None → IsErrOf result Usage }
    ensures bounded { IfOk result IsBounded }
{
    match asked(words) {
        None => Err(WordsFault::Usage),
        Some(command) => {
            let command_with_options = command_with_options(alloc, words, command)?;
            Ok(command_with_options)
        }
    }
}

// A command with the options of its words.
fn command_with_options(
    alloc: Global,
    words: &[Text],
    command: CommandName,
) -> Result<Command, NoMemory>
    requires { asked words.now ≡ Some command }
    ensures command_with_options { IfOk result (λ found. found ≡ command_with_options words.now command) }
    ensures bounded { IfOk result IsBounded }
{
    match command {
        CommandName::Plan => {
            let options = options_of(alloc, words)?;
            Ok(Command::Plan(options))
        }
        CommandName::Generate => generate_of(alloc, words),
        CommandName::Freeze => freeze_of(alloc, words),
        CommandName::Replay => replay_of(alloc, words),
    }
}

fn generate_of(alloc: Global, words: &[Text]) -> Result<Command, NoMemory>
    requires { asked words.now ≡ Some CommandName.Generate }
    ensures command_with_options { IfOk result (λ found. found ≡ generate_of words.now) }
    ensures bounded { IfOk result IsBounded }
{
    let matches = matches_of(alloc, words)?;
    let number = number_of(value_of(&matches, OptionName::Number));
    let limit = limit_in(value_of(&matches, OptionName::MaxBackjumps));
    Ok(Command::Generate {
        number,
        limit: limit.unwrap_or(Limit::At(4000)),
    })
}

/// The default options, with this limit.
pub fn default_options(alloc: Global, limit: Limit) -> Result<Options, NoMemory>
    ensures { IfOk result (λ options. options ≡ default_options limit) }
{
    let places = places_of(alloc, None, None)?;
    let env = env_of(alloc, None, None, None)?;
    Ok(Options {
        places,
        env,
        limit: Some(limit),
        json: false,
        count_conflicts: false,
        minimize: false,
    })
}

fn freeze_of(alloc: Global, words: &[Text]) -> Result<Command, NoMemory>
    requires { asked words.now ≡ Some CommandName.Freeze }
    ensures command_with_options { IfOk result (λ found. found ≡ command_with_options words.now CommandName.Freeze) }
    ensures bounded { IfOk result IsBounded }
{
    let matches = matches_of(alloc, words)?;
    let options = plain_options(alloc, &matches)?;
    Ok(Command::Freeze(options))
}

fn replay_of(alloc: Global, words: &[Text]) -> Result<Command, NoMemory>
    requires { asked words.now ≡ Some CommandName.Replay }
    ensures command_with_options { IfOk result (λ found. found ≡ replay_of words.now) }
    ensures bounded { IfOk result IsBounded }
{
    let matches = matches_of(alloc, words)?;
    let options = plain_options(alloc, &matches)?;
    let events = text_or(alloc, value_of(&matches, OptionName::Events), "events")?;
    let slots = slots_of(value_of(&matches, OptionName::Slots));
    Ok(Command::Replay {
        options,
        events,
        slots,
    })
}

// The matches of the parser, which fails only out of memory.
fn matches_of<'a>(alloc: Global, words: &'a [Text]) -> Result<ArgMatches<'a>, NoMemory>
    requires { is_some (asked words.now) ≡ true }
    ensures { IfOk result (λ matches. Finds words.entry.now (found_of matches)) }
{
    match parsed(alloc, words) {
        Ok(matches) => Ok(matches),
        Err(_) => Err(NoMemory),
    }
}

fn options_of(alloc: Global, words: &[Text]) -> Result<Options, NoMemory>
    requires { is_some (asked words.now) ≡ true }
    ensures { IfOk result (λ options. options ≡ options_of words.now) }
{
    let matches = matches_of(alloc, words)?;
    let plain = plain_options(alloc, &matches)?;
    Ok(Options {
        json: is_set(value_of(&matches, OptionName::Json)),
        count_conflicts: is_set(value_of(&matches, OptionName::CountConflicts)),
        minimize: is_set(value_of(&matches, OptionName::MinimizeConflictSet)),
        ..plain
    })
}

// The options of words, with no flag set.
fn plain_options(alloc: Global, matches: &ArgMatches<'_>) -> Result<Options, NoMemory>
    requires { is_compiler (compiler_or (first_value (found_of matches.now) (name_of OptionName.Compiler))) ≡ true }
    ensures { (words : List (List ℕ)) → Finds words (found_of matches.now)
        → IfOk result (λ options. options ≡ plain_options words) }
{
    let index = value_of(matches, OptionName::Index);
    let installed = value_of(matches, OptionName::Installed);
    let os = value_of(matches, OptionName::Os);
    let arch = value_of(matches, OptionName::Arch);
    let compiler = value_of(matches, OptionName::Compiler);
    let places = places_of(alloc, index, installed)?;
    let env = env_of(alloc, os, arch, compiler)?;
    let limit = limit_in(value_of(matches, OptionName::MaxBackjumps));
    Ok(Options {
        places,
        env,
        limit,
        json: false,
        count_conflicts: false,
        minimize: false,
    })
}

fn value_of<'a>(matches: &ArgMatches<'a>, option: OptionName) -> Option<&'a str>
    ensures { option_copied result ≡ first_value (found_of matches.now) (name_of option) }
{
    matches.get_str(name_of(option))
}

// Whether a flag was found.
fn is_set(value: Option<&str>) -> bool
    ensures { result ≡ is_true (option_copied value.entry) }
{
    match value {
        Some(text) => text == "true",
        None => false,
    }
}

fn number_of(value: Option<&str>) -> u32
    requires { option_map_or is_number (option_copied value) false ≡ true }
    ensures number { result ≡ number_in (unwrap_or (option_copied value.entry) []) }
    ensures bounded { (1 ≤ result) × (result ≤ 2000) }
{
    match value {
        Some(text) => number_in(text.as_bytes()) as u32,
        None => 0,
    }
}

// How many nodes may run at once, 1 by default.
fn slots_of(value: Option<&str>) -> u32
    requires { option_map_or is_slot_count (option_copied value) true ≡ true }
    ensures slots { result ≡ slots_or (option_copied value.entry) }
    ensures some { 1 ≤ result }
{
    match value {
        Some(text) => number_in(text.as_bytes()) as u32,
        None => 1,
    }
}

fn places_of(
    alloc: Global,
    index: Option<&str>,
    installed: Option<&str>,
) -> Result<Places, NoMemory>
    ensures { IfOk result (λ places. places ≡ places_of (option_copied index.entry)
        (option_copied installed.entry)) }
{
    let index = text_or(alloc, index, "index")?;
    let installed = text_or(alloc, installed, "installed")?;
    Ok(Places { index, installed })
}

fn text_or(alloc: Global, value: Option<&str>, otherwise: &str) -> Result<Text, NoMemory>
    ensures { IfOk result (λ text. text ≡ unwrap_or (option_copied value.entry) otherwise.now) }
{
    match value {
        Some(text) => Text::from_str(alloc, text),
        None => Text::from_str(alloc, otherwise),
    }
}

fn env_of(
    alloc: Global,
    os: Option<&str>,
    arch: Option<&str>,
    compiler: Option<&str>,
) -> Result<Env, NoMemory>
    requires { is_compiler (compiler_or (option_copied compiler)) ≡ true }
    ensures { IfOk result (λ env. env ≡ env_of (option_copied os.entry) (option_copied arch.entry)
        (option_copied compiler.entry)) }
{
    let text = text_or(alloc, compiler, "ghc-9.4.7")?;
    let (compiler, compiler_version) = compiler_of(alloc, text.as_bytes())?;
    let os = system_of(alloc, lowered(text_or(alloc, os, "linux")?))?;
    let arch = lowered(text_or(alloc, arch, "x86_64")?);
    Ok(Env {
        os,
        arch,
        compiler,
        compiler_version,
    })
}

// The name in lower case, and the version after the last `-`.
fn compiler_of(alloc: Global, text: &[u8]) -> Result<(Text, Version), NoMemory>
    requires { is_compiler text.now ≡ true }
    ensures name { IfOk result (λ p. p.0 ≡ str_to_ascii_lowercase (compiler_name text.now)) }
    ensures version { IfOk result (λ p. p.1.parts ≡ parts_of (compiler_digits text.now)) }
{
    let (name, digits) = cut_at_last_dash(text);
    let version = version_of(alloc, digits)?;
    let name = lowered(Text::from_ascii(alloc, name)?);
    Ok((name, version))
}

fn lowered(mut text: Text) -> Text
    ensures { result ≡ str_to_ascii_lowercase text }
{
    text.make_ascii_lowercase();
    text
}

fn version_of(alloc: Global, text: &[u8]) -> Result<Version, NoMemory>
    requires { is_version_text text.now ≡ true }
    ensures { IfOk result (λ version. version.parts ≡ parts_of text.now) }
{
    match read_version(alloc, text) {
        Ok(version) => Ok(version),
        Err(TextFault::NoMemory) => Err(NoMemory),
        Err(TextFault::Bad(_)) => unreachable!(),
    }
}

fn limit_in(value: Option<&str>) -> Option<Limit>
    ensures { result ≡ option_and_then limit_of (option_copied value.entry) }
{
    let number = value?;
    limit_of(number.as_bytes())
}
