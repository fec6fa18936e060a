// Names of flags, systems, processors and compilers in a condition.
ghost use Rattle.std.specs.Prelude.{◌≡◌, ◌≤◌, ◌<◌, length, IfOk};
ghost use Rattle.std.specs.List.{prefix_len};
ghost use Rattle.std.specs.Str.{IsAscii, str_to_ascii_lowercase};
ghost use Rattle.text_grammar.specs.Reading.{Gives, skip_blanks, byte_due};
ghost use Rattle.condition_text.specs.Forms.{first_of, part_of};
ghost use Rattle.condition_text.specs.Reading.{bad, split, name_at, named_at};

use plan_types::{Cause, NoMemory, Text, TextFault};
use std::alloc::Global;
use text_grammar::{byte_after, skip_blanks};

/// The form of a name: of a flag, of a system or processor, or of a compiler.
#[derive(Clone, Copy)]
pub enum NameForm {
    Flag,
    Part,
    Compiler,
}

impl NameForm {
    fn begins(self, byte: u8) -> bool
        ensures { result ≡ first_of self byte }
    {
        match self {
            NameForm::Flag => byte != b'-',
            NameForm::Part => is_component_byte(byte),
            NameForm::Compiler => byte.is_ascii_alphanumeric(),
        }
    }

    fn has(self, byte: u8) -> bool
        ensures { result ≡ part_of self byte }
    {
        match self {
            NameForm::Flag => is_component_byte(byte),
            NameForm::Part => is_component_byte(byte),
            NameForm::Compiler => byte.is_ascii_alphanumeric(),
        }
    }
}

fn is_component_byte(byte: u8) -> bool
    ensures { result ≡ part_of NameForm.Part byte }
{
    byte.is_ascii_alphanumeric() || byte == b'-' || byte == b'_'
}

fn run_len(form: NameForm, text: &[u8]) -> usize
    ensures count { result ≡ prefix_len (part_of form) text.now }
    ensures within { result ≤ length text.now }
{
    text.iter().take_while(|byte| form.has(**byte)).count()
}

// The longest run of name bytes, and the rest.
fn split(form: NameForm, text: &[u8]) -> (&[u8], &[u8])
    ensures { (result.0.now, result.1.now) ≡ split (part_of form) text.now }
{
    text.split_at(run_len(form, text))
}

pub fn bad_cond() -> TextFault
    ensures { result ≡ TextFault.Bad Cause.BadCond }
{
    TextFault::Bad(Cause::BadCond)
}

/// The name at the start of a text, and the rest.
pub fn name_at(form: NameForm, text: &[u8]) -> Result<(&[u8], &[u8]), TextFault>
    ensures gives { Gives (λ p. (p.0.now, p.1.now)) result (name_at (first_of form) (part_of form) text.now) }
    ensures within { IfOk result (λ p. length p.1.now < length text.now) }
    ensures ascii { IfOk result (λ p. IsAscii p.0.now) }
{
    front_name(form, text)
}

#[tactic(auto, unfolding(crate::specs::Reading::name_at))]
fn front_name(form: NameForm, text: &[u8]) -> Result<(&[u8], &[u8]), TextFault>
    ensures { Gives (λ p. (p.0.now, p.1.now)) result (name_at (first_of form) (part_of form) text.now) }
{
    match text {
        [first, ..] if form.begins(*first) && form.has(*first) => Ok(split(form, text)),
        _ => Err(bad_cond()),
    }
}

/// The rest after blanks and a required closing parenthesis.
pub fn closed(text: &[u8]) -> Result<&[u8], TextFault>
    ensures gives { Gives (λ rest. rest.now) result (byte_due bad 41 (skip_blanks text.now)) }
    ensures within { IfOk result (λ rest. length rest.now < length text.now) }
{
    match byte_after(skip_blanks(text), b')') {
        None => Err(bad_cond()),
        Some(rest) => Ok(rest),
    }
}

/// A name in parentheses, and the rest.
pub fn named_at(form: NameForm, text: &[u8]) -> Result<(&[u8], &[u8]), TextFault>
    ensures gives { Gives (λ p. (p.0.now, p.1.now)) result (named_at (first_of form) (part_of form) text.now) }
    ensures within { IfOk result (λ p. length p.1.now < length text.now) }
    ensures ascii { IfOk result (λ p. IsAscii p.0.now) }
{
    match byte_after(skip_blanks(text), b'(') {
        None => Err(bad_cond()),
        Some(rest) => {
            let (name, rest) = name_at(form, skip_blanks(rest))?;
            let rest = closed(rest)?;
            Ok((name, rest))
        }
    }
}

/// A copy of the name, in lower case.
pub fn lowered(alloc: Global, name: &[u8]) -> Result<Text, NoMemory>
    requires { IsAscii name.now }
    ensures { IfOk result (λ text. text ≡ str_to_ascii_lowercase name.now) }
{
    let mut text = Text::from_ascii(alloc, name)?;
    text.make_ascii_lowercase();
    Ok(text)
}
