// The words and tests of a condition.
ghost use Rattle.std.specs.Prelude.{◌≡◌, ◌≤◌, ◌<◌, length, IfOk, IfSome};
ghost use Rattle.std.specs.Option.{option_copied};
ghost use Rattle.plan_types.specs.declared.condition.Cond.{Cond};
ghost use Rattle.plan_types.specs.declared.range.Range.{Range};
ghost use Rattle.text_grammar.specs.Reading.{Gives, skip_blanks, byte_due, letter_after, word_due};
ghost use Rattle.condition_text.specs.Reading.{bad, cond_cause, tail_at, cond_tail, compiler_at, flag_at, os_at, arch_at, impl_at, from_a, from_o, after_f, from_f, atom_at};

use crate::name::{NameForm, bad_cond, lowered, name_at, named_at};
use conditionals::system_of;
use plan_types::{Cause, Cond, Range, Spec, Text, TextFault};
use std::alloc::Global;
use text_grammar::{byte_after, skip_blanks};
use version_range::{byte_due, range_at_front};

// The rest of the text, if its first byte is this lower-case letter, in any case.
fn letter_after(text: &[u8], letter: u8) -> Option<&[u8]>
    ensures value { option_copied result ≡ letter_after letter text.now }
    ensures within { IfSome result (λ rest. length rest.now < length text.now) }
{
    match text {
        [first, rest @ ..] if first.to_ascii_lowercase() == letter => Some(rest),
        _ => None,
    }
}

// The rest after a required word, in any case.
fn word_due<'a>(text: &'a [u8], word: &[u8]) -> Result<&'a [u8], TextFault>
    ensures gives { Gives (λ rest. rest.now) result (word_due bad word.now text.now) }
    ensures within { IfOk result (λ rest. length rest.now ≤ length text.now) }
{
    let mut rest = text;
    let mut letters = word;
    while let [letter, others @ ..] = letters {
        match letter_after(rest, *letter) {
            None => return Err(bad_cond()),
            Some(more) => rest = more,
        }
        letters = others;
    }
    Ok(rest)
}

// The cause of a fault in a range, as one of a condition.
fn cond_cause(cause: Cause) -> Cause
    ensures { result ≡ cond_cause cause }
{
    match cause {
        Cause::NeedsVersion => Cause::NeedsVersion,
        Cause::TooDeep => Cause::TooDeep,
        Cause::NotUtf8
        | Cause::StrayBrace
        | Cause::UnclosedBrace
        | Cause::BadName
        | Cause::BadVersion
        | Cause::BadRange
        | Cause::BadCond
        | Cause::BadDepend
        | Cause::BadConstraint
        | Cause::MissingField
        | Cause::WrongCabalVersion
        | Cause::BadField
        | Cause::DuplicateName
        | Cause::UnknownStanza
        | Cause::UnknownFlag
        | Cause::ImportNotFirst
        | Cause::ElseWithoutIf
        | Cause::UnknownComponent
        | Cause::ComponentCycle
        | Cause::TooManyPaths
        | Cause::Unsupported
        | Cause::NoMatch
        | Cause::TwoCabalFiles
        | Cause::NoPackages
        | Cause::TooLarge
        | Cause::WrongPlace
        | Cause::BadRecord
        | Cause::DuplicateLocal
        | Cause::DuplicateUnit
        | Cause::TooMany
        | Cause::BadEvent => Cause::BadCond,
    }
}

// An optional range, and the parenthesis that ends the test.
fn tail_at(alloc: Global, spec: Spec, text: &[u8]) -> Result<(Range, &[u8]), TextFault>
    ensures gives { Gives (λ p. (p.0, p.1.now)) result (tail_at spec 64 text.now) }
    ensures within { IfOk result (λ p. length p.1.now < length text.now) }
{
    match byte_after(skip_blanks(text), b')') {
        Some(rest) => Ok((Range::Any, rest)),
        None => {
            let (range, rest) = range_at_front(alloc, text, spec)?;
            let rest = byte_due(spec, skip_blanks(rest), b')')?;
            Ok((range, rest))
        }
    }
}

fn cond_tail(alloc: Global, spec: Spec, text: &[u8]) -> Result<(Range, &[u8]), TextFault>
    ensures gives { Gives (λ p. (p.0, p.1.now)) result (cond_tail spec 64 text.now) }
    ensures within { IfOk result (λ p. length p.1.now < length text.now) }
{
    match tail_at(alloc, spec, text) {
        Ok(found) => Ok(found),
        Err(TextFault::NoMemory) => Err(TextFault::NoMemory),
        Err(TextFault::Bad(cause)) => Err(TextFault::Bad(cond_cause(cause))),
    }
}

fn compiler_at(alloc: Global, spec: Spec, text: &[u8]) -> Result<(Text, Range, &[u8]), TextFault>
    ensures gives { Gives (λ p. ((p.0, p.1), p.2.now)) result (compiler_at (cond_tail spec 64) text.now) }
    ensures within { IfOk result (λ p. length p.2.now < length text.now) }
{
    let (name, rest) = name_at(NameForm::Compiler, text)?;
    let (range, rest) = cond_tail(alloc, spec, rest)?;
    let name = lowered(alloc, name)?;
    Ok((name, range, rest))
}

fn impl_at(alloc: Global, spec: Spec, text: &[u8]) -> Result<(Cond, &[u8]), TextFault>
    ensures gives { Gives (λ p. (p.0, p.1.now)) result (impl_at (cond_tail spec 64) text.now) }
    ensures within { IfOk result (λ p. length p.1.now < length text.now) }
{
    match byte_after(skip_blanks(text), b'(') {
        None => Err(bad_cond()),
        Some(rest) => {
            let (name, range, rest) = compiler_at(alloc, spec, skip_blanks(rest))?;
            Ok((Cond::Impl(name, range), rest))
        }
    }
}

fn flag_at(alloc: Global, text: &[u8]) -> Result<(Cond, &[u8]), TextFault>
    ensures gives { Gives (λ p. (p.0, p.1.now)) result (flag_at text.now) }
    ensures within { IfOk result (λ p. length p.1.now < length text.now) }
{
    let (name, rest) = named_at(NameForm::Flag, text)?;
    Ok((Cond::Flag(lowered(alloc, name)?), rest))
}

fn os_at(alloc: Global, text: &[u8]) -> Result<(Cond, &[u8]), TextFault>
    ensures gives { Gives (λ p. (p.0, p.1.now)) result (os_at text.now) }
    ensures within { IfOk result (λ p. length p.1.now < length text.now) }
{
    let (name, rest) = named_at(NameForm::Part, text)?;
    let name = lowered(alloc, name)?;
    Ok((Cond::Os(system_of(alloc, name)?), rest))
}

fn arch_at(alloc: Global, text: &[u8]) -> Result<(Cond, &[u8]), TextFault>
    ensures gives { Gives (λ p. (p.0, p.1.now)) result (arch_at text.now) }
    ensures within { IfOk result (λ p. length p.1.now < length text.now) }
{
    let (name, rest) = named_at(NameForm::Part, text)?;
    Ok((Cond::Arch(lowered(alloc, name)?), rest))
}

// `arch` or `impl`.
fn from_a(alloc: Global, spec: Spec, text: &[u8]) -> Result<(Cond, &[u8]), TextFault>
    ensures gives { Gives (λ p. (p.0, p.1.now)) result (from_a (cond_tail spec 64) text.now) }
    ensures within { IfOk result (λ p. length p.1.now < length text.now) }
{
    match letter_after(text, b'a') {
        None => impl_at(alloc, spec, word_due(text, b"impl")?),
        Some(rest) => arch_at(alloc, word_due(rest, b"rch")?),
    }
}

fn from_o(alloc: Global, spec: Spec, text: &[u8]) -> Result<(Cond, &[u8]), TextFault>
    ensures gives { Gives (λ p. (p.0, p.1.now)) result (from_o (cond_tail spec 64) text.now) }
    ensures within { IfOk result (λ p. length p.1.now < length text.now) }
{
    match letter_after(text, b'o') {
        None => from_a(alloc, spec, text),
        Some(rest) => os_at(alloc, word_due(rest, b"s")?),
    }
}

// `false` or `flag`, after its first letter.
fn after_f(alloc: Global, text: &[u8]) -> Result<(Cond, &[u8]), TextFault>
    ensures gives { Gives (λ p. (p.0, p.1.now)) result (after_f text.now) }
    ensures within { IfOk result (λ p. length p.1.now < length text.now) }
{
    match letter_after(text, b'a') {
        None => flag_at(alloc, word_due(text, b"lag")?),
        Some(rest) => {
            let rest = word_due(rest, b"lse")?;
            Ok((Cond::Never, rest))
        }
    }
}

fn from_f(alloc: Global, spec: Spec, text: &[u8]) -> Result<(Cond, &[u8]), TextFault>
    ensures gives { Gives (λ p. (p.0, p.1.now)) result (from_f (cond_tail spec 64) text.now) }
    ensures within { IfOk result (λ p. length p.1.now < length text.now) }
{
    match letter_after(text, b'f') {
        None => from_o(alloc, spec, text),
        Some(rest) => after_f(alloc, rest),
    }
}

/// A word or a test, and the rest.
#[tactic(auto, unfolding(crate::specs::Reading::atom_at))]
pub fn atom_at(alloc: Global, spec: Spec, text: &[u8]) -> Result<(Cond, &[u8]), TextFault>
    ensures gives { Gives (λ p. (p.0, p.1.now)) result (atom_at (cond_tail spec 64) text.now) }
    ensures within { IfOk result (λ p. length p.1.now < length text.now) }
{
    match letter_after(text, b't') {
        None => from_f(alloc, spec, text),
        Some(rest) => {
            let rest = word_due(rest, b"rue")?;
            Ok((Cond::Always, rest))
        }
    }
}
