// The cabal-version of a file.

ghost use Rattle.std.specs.Prelude.{◌≡◌, ◌∷◌, [], IfOk, IfErr, take};
ghost use Rattle.std.specs.Option.{option_copied};
ghost use Rattle.plan_types.specs.Refusal.{RefusesAt};
ghost use Rattle.std.specs.declared.result.Result.TheVariants.{Ok, Err};
ghost use Rattle.older_fields.specs.Headers.{IsHeader, IsStatedBy, IsRangeOf, lower, is_upper, older, from_range, edition_of, judged, is_first};
ghost use Rattle.older_fields.specs.Items.{leading, is_field_named};

use crate::edition::Edition;
use crate::item::{is_field_named, last_named, leading, line_of, text_of};
use plan_types::{Cause, Element, Fault, NoMemory, Range, Spec, TextFault, Version};
use std::alloc::Global;
use version_range::{read_range, version_of};

/// The version of the specification that a file states, and the line where it does.
#[derive(Clone, Copy, Debug)]
pub struct Header {
    pub line: u32,
    pub edition: Edition,
}

/// The header of a file.
pub fn header_of(alloc: Global, items: &[Element]) -> Result<Header, Fault>
    ensures header { IfOk result (λ header. IsHeader items.now (Ok header)) }
    ensures fault { IfErr result (RefusesAt (λ line cause. IsHeader items.now (Err (line, cause)))) }
{
    let (heads, _) = items.split_at(leading(items));
    let Some(item) = last_named(heads, "cabal-version") else {
        return Ok(Header {
            line: 1,
            edition: Edition::V1_0,
        });
    };
    let text = text_of(alloc, item)?;
    let edition = edition_of(alloc, text.as_bytes())?;
    judged(line_of(item), is_first(items), edition)
}

/// Whether the first element is a header.
pub fn is_first(items: &[Element]) -> bool
    ensures { result ≡ is_first items.now }
{
    match items {
        [] => false,
        [first, ..] => is_field_named(first, "cabal-version"),
    }
}

// From 2.2 on the header comes first.
fn judged(line: u32, first: bool, edition: Option<Edition>) -> Result<Header, Fault>
    ensures header { IfOk result (λ header. judged line first edition ≡ Ok header) }
    ensures fault { IfErr result (RefusesAt (λ at cause. judged line first edition ≡ Err (at, cause))) }
{
    match edition {
        None => Err(Fault::At {
            line,
            cause: Cause::WrongCabalVersion,
        }),
        Some(edition) => {
            if first || edition.is_before(Edition::V2_2) {
                Ok(Header { line, edition })
            } else {
                Err(Fault::At {
                    line,
                    cause: Cause::MissingField,
                })
            }
        }
    }
}

/// The version that the text of a header means.
fn edition_of(alloc: Global, text: &[u8]) -> Result<Option<Edition>, NoMemory>
    ensures { IfOk result (IsStatedBy text.now) }
{
    let version = version_of(alloc, text)?;
    let range = range_of(alloc, text)?;
    Ok(either(&version, &range))
}

fn range_of(alloc: Global, text: &[u8]) -> Result<Option<Range>, NoMemory>
    ensures { IfOk result (IsRangeOf text.now) }
{
    match read_range(alloc, text, Spec::V2_4) {
        Ok(range) => Ok(Some(range)),
        Err(TextFault::Bad(_)) => Ok(None),
        Err(TextFault::NoMemory) => Err(NoMemory),
    }
}

fn either(version: &Option<Version>, range: &Option<Range>) -> Option<Edition>
    ensures { result ≡ edition_of version.now range.now }
{
    match version {
        Some(version) => Edition::from_numbers(version.parts.as_slice()),
        None => match range {
            Some(range) => from_range(range),
            None => None,
        },
    }
}

fn from_range(range: &Range) -> Option<Edition>
    ensures { result ≡ from_range range.now }
{
    match lower(range) {
        Some(numbers) => older(Edition::from_numbers(numbers)),
        None => None,
    }
}

// A range may state a version before 2.1.
fn older(edition: Option<Edition>) -> Option<Edition>
    ensures { result ≡ older edition }
{
    match edition {
        Some(edition) if edition.is_before(Edition::V2_2) => Some(edition),
        _ => None,
    }
}

/// The numbers of the lower bound of a range: that of its first operand. The others are upper bounds.
fn lower(range: &Range) -> Option<&[u32]>
    ensures { option_copied result ≡ lower range.now }
{
    let mut range = range;
    loop {
        match range {
            Range::Both(left, right) => {
                if !is_upper(right.get()) {
                    return None;
                }
                range = left.get();
            }
            Range::Either(..) | Range::Major(_) => return None,
            Range::Any | Range::Nothing | Range::AtMost(_) | Range::Below(_) => return Some(&[]),
            Range::Equal(x) | Range::Prefix(x) | Range::AtLeast(x) | Range::Above(x) => {
                return Some(x.parts.as_slice());
            }
        }
    }
}

fn is_upper(range: &Range) -> bool
    ensures { result ≡ is_upper range.now }
{
    match range {
        Range::AtMost(_) | Range::Below(_) => true,
        _ => false,
    }
}
