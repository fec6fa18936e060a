// The elements of a block of lines.
ghost use Rattle.std.specs.Prelude.{◌≡◌, ◌+◌, ◌<◌, ◌≤◌, ◌∷◌, ℕ, Bool, false, IfOk, IfErr, MatchResult, MatchOption, drop, length};
ghost use Rattle.cabal_lexer.specs.Opening.{section, braced_section, lower_case};
ghost use Rattle.cabal_lexer.specs.Layout.{ends, Ends, Begins, Fails, Cut, IsElement, At};

use crate::fields::{in_lower_case, read_braced_field, read_field};
use crate::lines::Line;
use crate::opening::{Opening, opening_at};
use plan_types::{Cause, Element, Fault, List, Text};
use std::alloc::Global;

/// A section's name as written, and what stands behind it.
#[derive(Drop)]
struct Heading<'a> {
    name: &'a str,
    args: &'a str,
}

/// Parses items from the first line on. Returns them with the number of lines that they take.
#[cycle(layout)]
pub fn read_items(
    alloc: Global,
    lines: &[Line],
    bound: usize,
    depth: u32,
    braced: bool,
) -> Result<(List<Element>, usize), Fault>
    requires { depth ≤ 65 }
    ensures cut { MatchResult result (λ r. Cut bound depth braced lines.now r.0 (drop r.1 lines.now))
        (At (Fails bound depth braced lines.now)) }
    ensures taken { IfOk result (λ r. r.1 ≤ length lines.now) }
{
    let mut items = List::new(alloc);
    let mut at = 0;
    while let Some(line) = line_inside(lines, at, bound, braced) {
        let (_, more) = lines.split_at(at + 1);
        let (item, count) = read_element(alloc, line, more, depth, braced)?;
        items.push(item)?;
        at += 1 + count;
    }
    Ok((items, at))
}

/// The line at a place, if it is inside the block.
fn line_inside<'l, 'a>(
    lines: &'l [Line<'a>],
    at: usize,
    bound: usize,
    braced: bool,
) -> Option<&'l Line<'a>>
    ensures { MatchOption result (at ≤ length lines.now → Ends bound braced (drop at lines.now))
        (λ line. (at < length lines.now) × (drop at lines.now ≡ line.now ∷ drop (at + 1) lines.now)
        × (ends bound braced line.now ≡ false)) }
{
    if at < lines.len() {
        let line = &lines[at];
        if !line.ends(bound, braced) {
            return Some(line);
        }
    }
    None
}

/// The element that a line begins, and the number of further lines that it takes.
#[cycle(layout)]
fn read_element(
    alloc: Global,
    line: &Line,
    more: &[Line],
    depth: u32,
    braced: bool,
) -> Result<(Element, usize), Fault>
    requires { depth ≤ 65 }
    ensures ok { IfOk result (λ r. IsElement depth braced line.now more.now r.0 (drop r.1 more.now)) }
    ensures taken { IfOk result (λ r. r.1 ≤ length more.now) }
    ensures err { (bound : ℕ) → ends bound braced line.now ≡ false
        → IfErr result (At (Fails bound depth braced (line.now ∷ more.now))) }
{
    match opening_at(line.text(), depth) {
        Err(cause) => Err(Fault::At {
            line: line.number(),
            cause,
        }),
        Ok(Opening::Field { name, first }) => {
            Ok(read_field(alloc, line, name, first, more, braced)?)
        }
        Ok(Opening::BracedField { name }) => read_braced_field(alloc, line, name, more),
        Ok(Opening::Section { name, args }) => {
            read_section(alloc, line, &Heading { name, args }, more, depth, braced)
        }
        Ok(Opening::BracedSection { name, args }) => {
            read_braced_section(alloc, line, &Heading { name, args }, more, depth)
        }
    }
}

/// A section, up to the first line that isn't deeper.
#[cycle(layout)]
fn read_section(
    alloc: Global,
    line: &Line,
    heading: &Heading<'_>,
    more: &[Line],
    depth: u32,
    braced: bool,
) -> Result<(Element, usize), Fault>
    requires { depth ≤ 64 }
    ensures ok { IfOk result (λ r.
        Begins depth line.now (section (lower_case heading.now.name.now) heading.now.args.now)
        → IsElement depth braced line.now more.now r.0 (drop r.1 more.now)) }
    ensures taken { IfOk result (λ r. r.1 ≤ length more.now) }
    ensures err { (bound : ℕ) → ends bound braced line.now ≡ false
        → Begins depth line.now (section (lower_case heading.now.name.now) heading.now.args.now) →
        IfErr result (At (Fails bound depth braced (line.now ∷ more.now))) }
{
    let (items, count) = read_items(alloc, more, line.indent() + 1, depth + 1, braced)?;
    let section = Element::Section {
        line: line.number(),
        name: in_lower_case(alloc, heading.name)?,
        args: Text::from_str(alloc, heading.args)?,
        items,
    };
    Ok((section, count))
}

/// A section in braces, up to the line that closes it.
#[cycle(layout)]
fn read_braced_section(
    alloc: Global,
    line: &Line,
    heading: &Heading<'_>,
    more: &[Line],
    depth: u32,
) -> Result<(Element, usize), Fault>
    requires { depth ≤ 64 }
    ensures ok { IfOk result (λ r. (braced : Bool)
        → Begins depth line.now (braced_section (lower_case heading.now.name.now) heading.now.args.now)
        → IsElement depth braced line.now more.now r.0 (drop r.1 more.now)) }
    ensures taken { IfOk result (λ r. r.1 ≤ length more.now) }
    ensures err { (bound : ℕ) (braced : Bool) → ends bound braced line.now ≡ false
        → Begins depth line.now (braced_section (lower_case heading.now.name.now) heading.now.args.now) →
        IfErr result (At (Fails bound depth braced (line.now ∷ more.now))) }
{
    let (items, count) = read_items(alloc, more, 0, depth + 1, true)?;
    if count == more.len() {
        return Err(Fault::At {
            line: line.number(),
            cause: Cause::UnclosedBrace,
        });
    }
    let section = Element::Section {
        line: line.number(),
        name: in_lower_case(alloc, heading.name)?,
        args: Text::from_str(alloc, heading.args)?,
        items,
    };
    Ok((section, count + 1))
}
