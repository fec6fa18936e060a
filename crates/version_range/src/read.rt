// A range is read from left to right. The fault is at the first byte at which no reading continues.
ghost use Rattle.std.specs.Prelude.{◌≡◌, ◌<◌, ◌≤◌, false, true, length, IfOk, IfErr, IfSome, MatchResult};
ghost use Rattle.std.specs.Option.{option_map};
ghost use Rattle.plan_types.specs.declared.range.Range.{Range};
ghost use Rattle.plan_types.specs.declared.refusal.Cause.{Cause};
ghost use Rattle.version_range.specs.Version.{has_versions};
ghost use Rattle.plan_types.specs.Refusal.{Refuses};
ghost use Rattle.version_range.specs.Grammar.{Stands, FirstFault};
ghost use Rattle.version_range.specs.Read.{followed, number_at, next_number, version_at, next_member, set_at, equal_at, compared_at, operand_at, word_at, operator_at, either_at, factor_at, behind, joint_byte, part_at, next_part, chain_at, range_in, inside, range_of};
ghost use Rattle.version_range.specs.Cuts.{joined_range};
ghost use Rattle.text_grammar.specs.Reading.{Gives, chained, skip_blanks};

use crate::bytes::{byte_due, fault_at};
use crate::merge::Connective;
use crate::number::number_at;
use crate::operator::Operator;
use plan_types::{Boxed, Cause, List, NoMemory, Range, Spec, TextFault, Version};
use std::alloc::Global;
use text_grammar::{begins_with, byte_after, skip_blanks};

fn number_due(spec: Spec, text: &[u8]) -> Result<(u32, &[u8]), TextFault>
    ensures gives { Gives (λ p. (p.0, p.1.now)) result (number_at spec text.now) }
    ensures within { IfOk result (λ p. length p.1.now < length text.now) }
{
    match number_at(text) {
        Some(found) => Ok(found),
        None => Err(fault_at(spec, Cause::BadVersion, text)),
    }
}

#[tactic(auto, unfolding(crate::specs::Read::next_number))]
fn next_number(star: bool, spec: Spec, text: &[u8]) -> Result<Option<(u32, &[u8])>, TextFault>
    ensures gives { Gives (option_map (λ p. (p.0, p.1.now))) result (next_number star spec text.now) }
    ensures within { IfOk result (λ found. IfSome found (λ p. length p.1.now < length text.now)) }
{
    match byte_after(text, b'.') {
        None => Ok(None),
        Some(more) => {
            if star && begins_with(more, b'*') {
                return Ok(None);
            }
            Ok(Some(number_due(spec, more)?))
        }
    }
}

fn numbers_after<'a>(
    star: bool,
    spec: Spec,
    parts: &mut List<u32>,
    text: &'a [u8],
) -> Result<&'a [u8], TextFault>
    ensures gives { Gives (λ rest. (parts.new, rest.now)) result
        (chained followed (next_number star spec) (parts.old, text.now)) }
    ensures within { IfOk result (λ rest. length rest.now ≤ length text.now) }
{
    let mut rest = text;
    while let Some((number, more)) = next_number(star, spec, rest)? {
        parts.push(number)?;
        rest = more;
    }
    Ok(rest)
}

#[tactic(auto, unfolding(crate::specs::Read::version_at))]
fn version_at(
    alloc: Global,
    star: bool,
    spec: Spec,
    text: &[u8],
) -> Result<(Version, &[u8]), TextFault>
    ensures gives { Gives (λ p. (p.0, p.1.now)) result (version_at star spec text.now) }
    ensures within { IfOk result (λ p. length p.1.now < length text.now) }
{
    let (first, rest) = number_due(spec, text)?;
    let mut parts = List::new(alloc);
    parts.push(first)?;
    let rest = numbers_after(star, spec, &mut parts, rest)?;
    Ok((Version { parts }, rest))
}

#[tactic(auto, unfolding(crate::specs::Read::compared_at))]
fn compared_at(
    alloc: Global,
    op: Operator,
    spec: Spec,
    text: &[u8],
) -> Result<(Range, &[u8]), TextFault>
    ensures gives { Gives (λ p. (p.0, p.1.now)) result (compared_at op spec text.now) }
    ensures within { IfOk result (λ p. length p.1.now < length text.now) }
{
    let (v, rest) = version_at(alloc, false, spec, text)?;
    Ok((op.of_version(v), rest))
}

// A version, or its prefix and `.*`.
#[tactic(auto, unfolding(crate::specs::Read::equal_at))]
fn equal_at(alloc: Global, spec: Spec, text: &[u8]) -> Result<(Range, &[u8]), TextFault>
    ensures gives { Gives (λ p. (p.0, p.1.now)) result (equal_at spec text.now) }
    ensures within { IfOk result (λ p. length p.1.now < length text.now) }
{
    let (v, rest) = version_at(alloc, true, spec, text)?;
    match byte_after(rest, b'.') {
        None => Ok((Range::Equal(v), rest)),
        Some(more) => {
            let rest = byte_due(spec, more, b'*')?;
            Ok((Range::Prefix(v), rest))
        }
    }
}

#[tactic(auto, unfolding(crate::specs::Read::next_member))]
fn next_member(
    alloc: Global,
    op: Operator,
    spec: Spec,
    text: &[u8],
) -> Result<Option<(Range, &[u8])>, TextFault>
    ensures gives { Gives (option_map (λ p. (p.0, p.1.now))) result (next_member op spec text.now) }
    ensures within { IfOk result (λ found. IfSome found (λ p. length p.1.now < length text.now)) }
{
    match byte_after(skip_blanks(text), b',') {
        None => Ok(None),
        Some(more) => {
            let (v, rest) = version_at(alloc, false, spec, skip_blanks(more))?;
            Ok(Some((op.of_version(v), rest)))
        }
    }
}

fn members_after(
    alloc: Global,
    op: Operator,
    spec: Spec,
    first: Range,
    text: &[u8],
) -> Result<(Range, &[u8]), TextFault>
    ensures gives { Gives (λ p. (p.0, p.1.now)) result
        (chained Range.Either (next_member op spec) (first, text.now)) }
    ensures within { IfOk result (λ p. length p.1.now ≤ length text.now) }
{
    let mut left = first;
    let mut rest = text;
    while let Some((right, more)) = next_member(alloc, op, spec, rest)? {
        left = join(alloc, Connective::Either, left, right)?;
        rest = more;
    }
    Ok((left, rest))
}

fn join(alloc: Global, joint: Connective, left: Range, right: Range) -> Result<Range, NoMemory>
    ensures { IfOk result (λ r. r ≡ joined_range joint left right) }
{
    let left = Boxed::new(alloc, left)?;
    let right = Boxed::new(alloc, right)?;
    match joint {
        Connective::Both => Ok(Range::Both(left, right)),
        Connective::Either => Ok(Range::Either(left, right)),
    }
}

// A set, after its opening brace.
#[tactic(auto, unfolding(crate::specs::Read::set_at))]
fn set_at(alloc: Global, op: Operator, spec: Spec, text: &[u8]) -> Result<(Range, &[u8]), TextFault>
    ensures gives { Gives (λ p. (p.0, p.1.now)) result (set_at op spec text.now) }
    ensures within { IfOk result (λ p. length p.1.now < length text.now) }
{
    let (v, rest) = version_at(alloc, false, spec, skip_blanks(text))?;
    let (range, rest) = members_after(alloc, op, spec, op.of_version(v), rest)?;
    let rest = byte_due(spec, skip_blanks(rest), b'}')?;
    Ok((range, rest))
}

#[tactic(auto, unfolding(crate::specs::Read::operand_at))]
fn operand_at(
    alloc: Global,
    op: Operator,
    spec: Spec,
    text: &[u8],
) -> Result<(Range, &[u8]), TextFault>
    ensures gives { Gives (λ p. (p.0, p.1.now)) result (operand_at op spec text.now) }
    ensures within { IfOk result (λ p. length p.1.now < length text.now) }
{
    if op.has_sets(spec) && begins_with(text, b'{') {
        let rest = byte_due(spec, text, b'{')?;
        return set_at(alloc, op, spec, rest);
    }
    match op {
        Operator::Equal => equal_at(alloc, spec, text),
        Operator::AtLeast => compared_at(alloc, Operator::AtLeast, spec, text),
        Operator::Above => compared_at(alloc, Operator::Above, spec, text),
        Operator::AtMost => compared_at(alloc, Operator::AtMost, spec, text),
        Operator::Below => compared_at(alloc, Operator::Below, spec, text),
        Operator::Major => compared_at(alloc, Operator::Major, spec, text),
    }
}

fn either_at(long: Operator, short: Operator, text: &[u8]) -> (Operator, &[u8])
    ensures value { (result.0, result.1.now) ≡ either_at long short text.now }
    ensures within { length result.1.now ≤ length text.now }
{
    match byte_after(text, b'=') {
        None => (short, text),
        Some(rest) => (long, rest),
    }
}

#[tactic(auto, unfolding(crate::specs::Read::operator_at))]
fn operator_at(spec: Spec, text: &[u8]) -> Result<(Operator, &[u8]), TextFault>
    ensures gives { Gives (λ p. (p.0, p.1.now)) result (operator_at spec text.now) }
    ensures within { IfOk result (λ p. length p.1.now < length text.now) }
{
    if let Some(rest) = byte_after(text, b'>') {
        return Ok(either_at(Operator::AtLeast, Operator::Above, rest));
    }
    if let Some(rest) = byte_after(text, b'<') {
        return Ok(either_at(Operator::AtMost, Operator::Below, rest));
    }
    if let Some(rest) = byte_after(text, b'^') {
        let more = byte_due(spec, rest, b'>')?;
        let behind = byte_due(spec, more, b'=')?;
        return Ok((Operator::Major, behind));
    }
    let more = byte_due(spec, text, b'=')?;
    let behind = byte_due(spec, more, b'=')?;
    Ok((Operator::Equal, behind))
}

// `any` or `none`.
#[tactic(auto, unfolding(crate::specs::Read::word_at))]
fn word_at(spec: Spec, text: &[u8]) -> Result<(Range, &[u8]), TextFault>
    ensures gives { Gives (λ p. (p.0, p.1.now)) result (word_at spec text.now) }
    ensures within { IfOk result (λ p. length p.1.now < length text.now) }
{
    if let Some(any) = byte_after(text, b'a') {
        let a = byte_due(spec, any, b'n')?;
        let rest = byte_due(spec, a, b'y')?;
        return Ok((Range::Any, rest));
    }
    let a = byte_due(spec, text, b'n')?;
    let b = byte_due(spec, a, b'o')?;
    let c = byte_due(spec, b, b'n')?;
    let rest = byte_due(spec, c, b'e')?;
    Ok((Range::Nothing, rest))
}

fn joint_byte(joint: Connective) -> u8
    ensures { result ≡ joint_byte joint }
{
    match joint {
        Connective::Both => b'&',
        Connective::Either => b'|',
    }
}

// The rest after `&&` or `||`; none if its first byte is missing.
fn behind(spec: Spec, text: &[u8], byte: u8) -> Result<Option<&[u8]>, TextFault>
    ensures gives { Gives (option_map (λ rest. rest.now)) result (behind spec byte text.now) }
    ensures within { IfOk result (λ found. IfSome found (λ rest. length rest.now < length text.now)) }
{
    match byte_after(skip_blanks(text), byte) {
        None => Ok(None),
        Some(more) => Ok(Some(byte_due(spec, more, byte)?)),
    }
}

// The contents of parentheses, with `room` for this and further ones.
#[cycle(reading)]
#[tactic(auto, unfolding(crate::specs::Read::inside))]
fn inside(alloc: Global, spec: Spec, room: u32, text: &[u8]) -> Result<(Range, &[u8]), TextFault>
    ensures gives { Gives (λ p. (p.0, p.1.now)) result (inside room spec text.now) }
    ensures within { IfOk result (λ p. length p.1.now < length text.now) }
{
    if room == 0 {
        return Err(TextFault::Bad(Cause::TooDeep));
    }
    range_in(alloc, spec, room - 1, text)
}

#[cycle(reading)]
#[tactic(auto, unfolding(crate::specs::Read::factor_at))]
fn factor_at(alloc: Global, spec: Spec, room: u32, text: &[u8]) -> Result<(Range, &[u8]), TextFault>
    ensures gives { Gives (λ p. (p.0, p.1.now)) result (factor_at (inside room spec) spec text.now) }
    ensures within { IfOk result (λ p. length p.1.now < length text.now) }
{
    if let Some(rest) = byte_after(text, b'(') {
        let (range, rest) = inside(alloc, spec, room, rest)?;
        let behind = byte_due(spec, skip_blanks(rest), b')')?;
        return Ok((range, behind));
    }
    if let Some(rest) = byte_after(text, b'-') {
        return word_at(spec, rest);
    }
    let (op, rest) = operator_at(spec, text)?;
    operand_at(alloc, op, spec, skip_blanks(rest))
}

// A factor, or a term of factors.
#[cycle(reading)]
#[tactic(auto, unfolding(crate::specs::Read::term_at))]
fn part_at(
    alloc: Global,
    spec: Spec,
    room: u32,
    joint: Connective,
    text: &[u8],
) -> Result<(Range, &[u8]), TextFault>
    ensures gives { Gives (λ p. (p.0, p.1.now)) result (part_at joint (inside room spec) spec text.now) }
    ensures within { IfOk result (λ p. length p.1.now < length text.now) }
{
    match joint {
        Connective::Both => factor_at(alloc, spec, room, skip_blanks(text)),
        Connective::Either => chain_at(alloc, spec, room, Connective::Both, text),
    }
}

#[cycle(reading)]
fn next_part(
    alloc: Global,
    spec: Spec,
    room: u32,
    joint: Connective,
    text: &[u8],
) -> Result<Option<(Range, &[u8])>, TextFault>
    ensures gives { Gives (option_map (λ p. (p.0, p.1.now))) result
        (next_part joint (inside room spec) spec text.now) }
    ensures within { IfOk result (λ found. IfSome found (λ p. length p.1.now < length text.now)) }
{
    match behind(spec, text, joint_byte(joint))? {
        None => Ok(None),
        Some(rest) => Ok(Some(part_at(alloc, spec, room, joint, rest)?)),
    }
}

#[cycle(reading)]
fn parts_after(
    alloc: Global,
    spec: Spec,
    room: u32,
    joint: Connective,
    first: Range,
    text: &[u8],
) -> Result<(Range, &[u8]), TextFault>
    ensures gives { Gives (λ p. (p.0, p.1.now)) result
        (chained (joined_range joint) (next_part joint (inside room spec) spec) (first, text.now)) }
    ensures within { IfOk result (λ p. length p.1.now ≤ length text.now) }
{
    let mut left = first;
    let mut rest = text;
    while let Some((right, more)) = next_part(alloc, spec, room, joint, rest)? {
        left = join(alloc, joint, left, right)?;
        rest = more;
    }
    Ok((left, rest))
}

#[cycle(reading)]
fn chain_at(
    alloc: Global,
    spec: Spec,
    room: u32,
    joint: Connective,
    text: &[u8],
) -> Result<(Range, &[u8]), TextFault>
    ensures gives { Gives (λ p. (p.0, p.1.now)) result (chain_at joint (inside room spec) spec text.now) }
    ensures within { IfOk result (λ p. length p.1.now < length text.now) }
{
    let (first, rest) = part_at(alloc, spec, room, joint, text)?;
    parts_after(alloc, spec, room, joint, first, rest)
}

#[cycle(reading)]
#[tactic(auto, unfolding(crate::specs::Read::range_in))]
fn range_in(alloc: Global, spec: Spec, room: u32, text: &[u8]) -> Result<(Range, &[u8]), TextFault>
    ensures gives { Gives (λ p. (p.0, p.1.now)) result (range_in (inside room spec) spec text.now) }
    ensures within { IfOk result (λ p. length p.1.now < length text.now) }
{
    chain_at(alloc, spec, room, Connective::Either, text)
}

/// Reads a range: terms joined by `||`, each of factors joined by `&&`, both left-associative. A text of blanks
/// only is any version. The fault is at the first byte at which no reading continues.
pub fn read_range(alloc: Global, text: &[u8], spec: Spec) -> Result<Range, TextFault>
    ensures range { IfOk result (λ r. Stands spec 64 text.now r) }
    ensures versions { IfOk result (λ r. has_versions r ≡ true) }
    ensures fault { IfErr result (Refuses (FirstFault spec 64 text.now)) }
    // Complete for ranges: a text that denotes a range gives it, or out of memory.
    ensures exactly_ranges { (r : Range) → Stands spec 64 text.now r →
        MatchResult result (λ found. found ≡ r) (Refuses (λ _. ⊥)) }
    // Complete for faults: a text with a fault gives it, or out of memory.
    ensures exactly_faults { (cause : Cause) → FirstFault spec 64 text.now cause →
        MatchResult result (λ _. ⊥) (Refuses (λ why. why ≡ cause)) }
{
    whole(alloc, text, spec)
}

/// Reads a range at the start of a text, and returns the rest. The range isn't empty, and blanks may come
/// before it.
pub fn range_at_front(alloc: Global, text: &[u8], spec: Spec) -> Result<(Range, &[u8]), TextFault>
    ensures gives { Gives (λ p. (p.0, p.1.now)) result (range_in (inside 64 spec) spec text.now) }
    ensures within { IfOk result (λ p. length p.1.now < length text.now) }
{
    range_in(alloc, spec, 64, text)
}

#[tactic(auto, unfolding(crate::specs::Read::range_of))]
fn whole(alloc: Global, text: &[u8], spec: Spec) -> Result<Range, TextFault>
    ensures { Gives (λ r. r) result (range_of spec text.now) }
{
    if skip_blanks(text).is_empty() {
        return Ok(Range::Any);
    }
    let (range, rest) = range_in(alloc, spec, 64, text)?;
    let rest = skip_blanks(rest);
    if rest.is_empty() {
        Ok(range)
    } else {
        Err(fault_at(spec, Cause::BadRange, rest))
    }
}
