// The forms of the values of options.
ghost use Rattle.std.specs.Prelude.{◌≡◌, ◌≤◌, ◌-◌, ◌==◌, ◌&&◌, not, length, nat_le, take};
ghost use Rattle.std.specs.List.{list_all, suffix_len};
ghost use Rattle.plan_types.specs.Name.{is_letter_or_digit};
ghost use Rattle.condition_text.specs.Grammar.{is_compiler_name};
ghost use Rattle.command_line.specs.Form.{compiler_digits, compiler_name, has_form, is_compiler, is_directory, is_number, is_part, is_path, is_signed, is_slot_count, is_version_text, number_in};

use crate::option_name::OptionName;
use plan_types::{Limit, is_component_name};
use text_grammar::begins_with;
use version_range::{is_count, limit_of};

/// Whether a value has the form of its option.
pub fn has_form(option: OptionName, value: &[u8]) -> bool
    ensures { result ≡ has_form option value.now }
{
    match option {
        OptionName::Index => is_path(value),
        OptionName::Installed => is_path(value),
        OptionName::Os => is_component_name(value),
        OptionName::Arch => is_component_name(value),
        OptionName::Compiler => is_compiler(value),
        OptionName::MaxBackjumps => is_signed(value),
        OptionName::Number => is_number(value),
        OptionName::Events => is_path(value),
        OptionName::Slots => is_slot_count(value),
        OptionName::Json => value.is_empty(),
        OptionName::CountConflicts => value.is_empty(),
        OptionName::MinimizeConflictSet => value.is_empty(),
    }
}

fn is_path(text: &[u8]) -> bool
    ensures { result ≡ is_path text.now }
{
    text.split(|byte| *byte == b'/').all(is_directory)
}

fn is_directory(name: &[u8]) -> bool
    ensures { result ≡ is_directory name.now }
{
    !name.is_empty() && name != b".".as_slice() && name != b"..".as_slice()
}

fn is_compiler(text: &[u8]) -> bool
    ensures { result ≡ is_compiler text.now }
{
    let (name, digits) = cut_at_last_dash(text);
    is_compiler_name(name) && is_version_text(digits)
}

/// Splits a compiler at its last `-` into name and version.
pub fn cut_at_last_dash(text: &[u8]) -> (&[u8], &[u8])
    ensures name { result.0.now ≡ compiler_name text.now }
    ensures digits { result.1.now ≡ compiler_digits text.now }
{
    let place = behind_last_dash(text);
    (front(text, place.saturating_sub(1)), &text[place..])
}

fn is_compiler_name(name: &[u8]) -> bool
    ensures { result ≡ is_compiler_name name.now }
{
    match name {
        [] => false,
        bytes => are_letters_or_digits(bytes),
    }
}

fn are_letters_or_digits(text: &[u8]) -> bool
    ensures { result ≡ list_all is_letter_or_digit text.now }
{
    text.iter().all(|byte| is_letter_or_digit(*byte))
}

fn is_letter_or_digit(byte: u8) -> bool
    ensures { result ≡ is_letter_or_digit byte }
{
    byte.is_ascii_alphanumeric()
}

fn is_version_text(text: &[u8]) -> bool
    ensures { result ≡ is_version_text text.now }
{
    text.split(|byte| *byte == b'.').all(is_part)
}

fn is_part(text: &[u8]) -> bool
    ensures { result ≡ is_part text.now }
{
    is_count(text) && (!begins_with(text, b'0') || text.len() == 1)
}

fn is_signed(text: &[u8]) -> bool
    ensures { result ≡ is_signed text.now }
{
    limit_of(text).is_some()
}

// One to three digits, from 1 to 999.
fn is_slot_count(text: &[u8]) -> bool
    ensures { result ≡ is_slot_count text.now }
{
    text.len() <= 3 && is_count(text) && is_within(number_in(text), 999)
}

// One to four digits, from 1 to 2,000.
fn is_number(text: &[u8]) -> bool
    ensures { result ≡ is_number text.now }
{
    text.len() <= 4 && is_count(text) && is_within(number_in(text), 2000)
}

fn is_within(number: u64, most: u64) -> bool
    ensures { result ≡ (nat_le 1 number && nat_le number most) }
{
    1 <= number && number <= most
}

/// The number of a text; 0 for a text that isn't a number.
pub fn number_in(text: &[u8]) -> u64
    ensures { result ≡ number_in text.now }
{
    match limit_of(text) {
        Some(Limit::At(number)) => number,
        Some(Limit::Unlimited) => 0,
        None => 0,
    }
}

// The index after the last `-`, or 0 without one.
fn behind_last_dash(text: &[u8]) -> usize
    ensures within { result ≤ length text.now }
    ensures place { result ≡ length text.now - suffix_len (λ b. not (b == 45)) text.now }
{
    let mut place = text.len();
    while place > 0 && text[place - 1] != b'-' {
        place -= 1;
    }
    place
}

fn front(text: &[u8], count: usize) -> &[u8]
    ensures { result.now ≡ take count text.now }
{
    match text.get(..count) {
        Some(front) => front,
        None => text,
    }
}
