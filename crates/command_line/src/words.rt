// Words have a reading if they fit a command.
ghost use Rattle.std.specs.Prelude.{◌≡◌, ◌==◌, ◌&&◌, true, count_by, find};
ghost use Rattle.std.specs.List.{list_any, list_all};
ghost use Rattle.std.specs.Option.{option_copied, option_map_or};
ghost use Rattle.command_line.specs.OptionName.{gives};
ghost use Rattle.command_line.specs.Form.{has_form};
ghost use Rattle.command_line.specs.CommandName.{needed_by, taken_by};
ghost use Rattle.command_line.specs.Words.{asked, fits, given, is_command, is_given, is_known, is_well_formed, options};

use crate::command_name::{CommandName, command_word, commands, needed_by, taken_by};
use crate::form::has_form;
use crate::option_name::{OptionName, gives, value_in};
use plan_types::Text;

/// The command that the words fit, if any.
pub fn asked(words: &[Text]) -> Option<CommandName>
    ensures { result ≡ asked words.now }
{
    command_among(words, &commands())
}

fn command_among(words: &[Text], commands: &[CommandName]) -> Option<CommandName>
    ensures { result ≡ find (fits words.now) commands.now }
{
    for command in commands {
        if fits(words, *command) {
            return Some(*command);
        }
    }
    None
}

// The words are the command's word once and options that it takes, in any order. No needed option is missing.
fn fits(words: &[Text], command: CommandName) -> bool
    ensures { result ≡ fits words.now command }
{
    are_known(words, command) && is_one_command(words, command) && has_needed(words, command)
}

fn are_known(words: &[Text], command: CommandName) -> bool
    ensures { result ≡ list_all (is_known command) words.now }
{
    words.iter().all(|word| is_known(word, command))
}

fn has_needed(words: &[Text], command: CommandName) -> bool
    ensures { result ≡ list_all (is_given words.now) (needed_by command) }
{
    needed_by(command)
        .iter()
        .all(|option| is_given(*option, words))
}

fn is_given(option: OptionName, words: &[Text]) -> bool
    ensures { result ≡ is_given words.now option }
{
    given(option, words).is_some()
}

fn is_one_command(words: &[Text], command: CommandName) -> bool
    ensures { result ≡ (count_by (is_command command) words.now == 1 && list_all (is_well_formed words.now) options) }
{
    command_count(words, command) == 1 && are_well_given(words)
}

/// Every option of the command line.
pub fn options() -> [OptionName; 12]
    ensures { result ≡ options }
{
    [
        OptionName::Index,
        OptionName::Installed,
        OptionName::Os,
        OptionName::Arch,
        OptionName::Compiler,
        OptionName::MaxBackjumps,
        OptionName::Number,
        OptionName::Events,
        OptionName::Slots,
        OptionName::Json,
        OptionName::CountConflicts,
        OptionName::MinimizeConflictSet,
    ]
}

// The word of the command, or an option that it takes, with its value.
fn is_known(word: &Text, command: CommandName) -> bool
    ensures { result ≡ is_known command word.now }
{
    is_command(word, command) || is_option(word.as_bytes(), taken_by(command))
}

fn is_command(word: &Text, command: CommandName) -> bool
    ensures { result ≡ is_command command word.now }
{
    word.as_str() == command_word(command)
}

fn is_option(word: &[u8], options: &[OptionName]) -> bool
    ensures { result ≡ list_any (λ option. gives option word.now) options.now }
{
    options.iter().any(|option| gives(*option, word))
}

fn command_count(words: &[Text], command: CommandName) -> usize
    ensures { result ≡ count_by (is_command command) words.now }
{
    words
        .iter()
        .filter(|word| is_command(word, command))
        .count()
}

fn are_well_given(words: &[Text]) -> bool
    ensures { result ≡ list_all (is_well_formed words.now) options }
{
    options()
        .iter()
        .all(|option| is_well_formed(*option, words))
}

// The option occurs at most once, and its value is well-formed.
fn is_well_formed(option: OptionName, words: &[Text]) -> bool
    ensures { result ≡ is_well_formed words.now option }
{
    word_count(option, words) <= 1 && has_good_value(option, words)
}

fn word_count(option: OptionName, words: &[Text]) -> usize
    ensures { result ≡ count_by (gives option) words.now }
{
    words
        .iter()
        .filter(|word| gives(option, word.as_bytes()))
        .count()
}

fn has_good_value(option: OptionName, words: &[Text]) -> bool
    ensures { result ≡ option_map_or (has_form option) (given option words.now) true }
{
    match given(option, words) {
        Some(value) => has_form(option, value),
        None => true,
    }
}

fn given(option: OptionName, words: &[Text]) -> Option<&[u8]>
    ensures { option_copied result ≡ given option words.now }
{
    let word = words.iter().find(|word| gives(option, word.as_bytes()))?;
    Some(value_in(option, word.as_bytes()))
}
