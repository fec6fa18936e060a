// A condition is read from left to right. The fault is at the first byte at which no reading continues.
ghost use Rattle.std.specs.Prelude.{◌≡◌, ◌<◌, ◌≤◌, length, IfOk, IfErr, IfSome, MatchResult};
ghost use Rattle.std.specs.Option.{option_map};
ghost use Rattle.plan_types.specs.Refusal.{Refuses};
ghost use Rattle.plan_types.specs.declared.condition.Cond.{Cond};
ghost use Rattle.plan_types.specs.declared.refusal.Cause.{Cause};
ghost use Rattle.text_grammar.specs.Reading.{Gives, skip_blanks, byte_due, behind_twice, chained};
ghost use Rattle.condition_text.specs.Grammar.{Stands, FirstFault};
ghost use Rattle.condition_text.specs.Reading.{bad, cond_tail, joint_byte, joined, part_at, next_part, chain_at, opened_at, factor_at, whole_by};

use crate::name::{bad_cond, closed};
use crate::words::atom_at;
use plan_types::{Cause, Cond, NoMemory, Shared, Spec, TextFault};
use std::alloc::Global;
use text_grammar::{byte_after, skip_blanks};

// How the parts of a chain are joined: factors by `&&`, or terms by `||`.
#[derive(Clone, Copy)]
pub enum Joint {
    And,
    Or,
}

impl Joint {
    fn byte(self) -> u8
        ensures { result ≡ joint_byte self }
    {
        match self {
            Joint::And => b'&',
            Joint::Or => b'|',
        }
    }

    fn join(self, alloc: Global, left: Cond, right: Cond) -> Result<Cond, NoMemory>
        ensures { IfOk result (λ c. c ≡ joined self left right) }
    {
        let left = Shared::new(alloc, left)?;
        let right = Shared::new(alloc, right)?;
        Ok(match self {
            Joint::And => Cond::And(left, right),
            Joint::Or => Cond::Or(left, right),
        })
    }
}

fn negated(alloc: Global, inner: Cond) -> Result<Cond, NoMemory>
    ensures { IfOk result (λ c. c ≡ Cond.Not inner) }
{
    Ok(Cond::Not(Shared::new(alloc, inner)?))
}

// The rest after a required byte.
fn cond_byte_due(text: &[u8], byte: u8) -> Result<&[u8], TextFault>
    ensures gives { Gives (λ rest. rest.now) result (byte_due bad byte text.now) }
    ensures within { IfOk result (λ rest. length rest.now < length text.now) }
{
    match byte_after(text, byte) {
        None => Err(bad_cond()),
        Some(rest) => Ok(rest),
    }
}

// The rest after `&&` or `||`; none if its first byte is missing.
fn behind(text: &[u8], byte: u8) -> Result<Option<&[u8]>, TextFault>
    ensures gives { Gives (option_map (λ rest. rest.now)) result (behind_twice bad byte text.now) }
    ensures within { IfOk result (λ found. IfSome found (λ rest. length rest.now < length text.now)) }
{
    match byte_after(skip_blanks(text), byte) {
        None => Ok(None),
        Some(more) => Ok(Some(cond_byte_due(more, byte)?)),
    }
}

// What the readers of a factor's parts share. `room` is how many more `(` and `!` may be open at once.
#[derive(Clone, Copy)]
pub struct Depth {
    alloc: Global,
    spec: Spec,
    room: u32,
}

// A factor, if any room is left. Each `(` and `!` around a factor takes one of `room`.
#[cycle(reading)]
#[tactic(auto, unfolding(crate::specs::Reading::opened_at))]
fn inner_factor(depth: Depth, text: &[u8]) -> Result<(Cond, &[u8]), TextFault>
    ensures gives { Gives (λ p. (p.0, p.1.now)) result (opened_at (cond_tail depth.spec 64) depth.room text.now) }
    ensures within { IfOk result (λ p. length p.1.now < length text.now) }
{
    if depth.room == 0 {
        return Err(TextFault::Bad(Cause::TooDeep));
    }
    let inner = Depth {
        alloc: depth.alloc,
        spec: depth.spec,
        room: depth.room - 1,
    };
    factor_at(inner, text)
}

#[cycle(reading)]
#[tactic(auto, unfolding(crate::specs::Reading::factor_at))]
fn factor_at(depth: Depth, text: &[u8]) -> Result<(Cond, &[u8]), TextFault>
    ensures gives { Gives (λ p. (p.0, p.1.now)) result
        (factor_at (cond_tail depth.spec 64) (opened_at (cond_tail depth.spec 64) depth.room) text.now) }
    ensures within { IfOk result (λ p. length p.1.now < length text.now) }
{
    if let Some(rest) = byte_after(text, b'(') {
        let (condition, rest) = chain_at(depth, Joint::Or, rest)?;
        let rest = closed(rest)?;
        return Ok((condition, rest));
    }
    if let Some(rest) = byte_after(text, b'!') {
        let (condition, rest) = inner_factor(depth, skip_blanks(rest))?;
        return Ok((negated(depth.alloc, condition)?, rest));
    }
    atom_at(depth.alloc, depth.spec, text)
}

// A factor, or a term of factors.
#[cycle(reading)]
fn part_at(depth: Depth, joint: Joint, text: &[u8]) -> Result<(Cond, &[u8]), TextFault>
    ensures gives { Gives (λ p. (p.0, p.1.now)) result
        (part_at joint (opened_at (cond_tail depth.spec 64) depth.room) text.now) }
    ensures within { IfOk result (λ p. length p.1.now < length text.now) }
{
    match joint {
        Joint::And => inner_factor(depth, skip_blanks(text)),
        Joint::Or => chain_at(depth, Joint::And, text),
    }
}

#[cycle(reading)]
fn next_part(depth: Depth, joint: Joint, text: &[u8]) -> Result<Option<(Cond, &[u8])>, TextFault>
    ensures gives { Gives (option_map (λ p. (p.0, p.1.now))) result
        (next_part joint (opened_at (cond_tail depth.spec 64) depth.room) text.now) }
    ensures within { IfOk result (λ found. IfSome found (λ p. length p.1.now < length text.now)) }
{
    match behind(text, joint.byte())? {
        None => Ok(None),
        Some(rest) => Ok(Some(part_at(depth, joint, rest)?)),
    }
}

#[cycle(reading)]
fn chained(depth: Depth, joint: Joint, first: Cond, text: &[u8]) -> Result<(Cond, &[u8]), TextFault>
    ensures gives { Gives (λ p. (p.0, p.1.now)) result
        (chained (joined joint) (next_part joint (opened_at (cond_tail depth.spec 64) depth.room)) (first, text.now)) }
    ensures within { IfOk result (λ p. length p.1.now ≤ length text.now) }
{
    let mut left = first;
    let mut rest = text;
    while let Some((right, more)) = next_part(depth, joint, rest)? {
        left = joint.join(depth.alloc, left, right)?;
        rest = more;
    }
    Ok((left, rest))
}

#[cycle(reading)]
fn chain_at(depth: Depth, joint: Joint, text: &[u8]) -> Result<(Cond, &[u8]), TextFault>
    ensures gives { Gives (λ p. (p.0, p.1.now)) result
        (chain_at joint (opened_at (cond_tail depth.spec 64) depth.room) text.now) }
    ensures within { IfOk result (λ p. length p.1.now < length text.now) }
{
    let (first, rest) = part_at(depth, joint, text)?;
    chained(depth, joint, first, rest)
}

/// Reads a condition: terms joined by `||`, each of factors joined by `&&`, both left-associative. The fault is
/// at the first byte at which no reading continues.
pub fn read_cond(alloc: Global, text: &[u8], spec: Spec) -> Result<Cond, TextFault>
    ensures condition { IfOk result (λ c. Stands spec 64 text.now c) }
    ensures fault { IfErr result (Refuses (FirstFault spec 64 text.now)) }
    // Complete for conditions: a text that denotes a condition gives it, or out of memory.
    ensures exactly_conditions { (c : Cond) → Stands spec 64 text.now c →
        MatchResult result (λ found. found ≡ c) (Refuses (λ _. ⊥)) }
    // Complete for faults: a text with a fault gives it, or out of memory.
    ensures exactly_faults { (cause : Cause) → FirstFault spec 64 text.now cause →
        MatchResult result (λ _. ⊥) (Refuses (λ why. why ≡ cause)) }
{
    let depth = Depth {
        alloc,
        spec,
        room: 65,
    };
    whole(depth, text)
}

fn whole(depth: Depth, text: &[u8]) -> Result<Cond, TextFault>
    ensures { Gives (λ c. c) result (whole_by (opened_at (cond_tail depth.spec 64) depth.room) text.now) }
{
    let (condition, rest) = chain_at(depth, Joint::Or, text)?;
    if skip_blanks(rest).is_empty() {
        Ok(condition)
    } else {
        Err(bad_cond())
    }
}
