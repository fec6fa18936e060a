// Fields and their values.
ghost use Rattle.std.specs.Prelude.{◌≡◌, ◌≤◌, ◌++◌, ◌∷◌, ℕ, Bool, false, not, drop, IfOk, IfErr, OnOk, length};
ghost use Rattle.std.specs.List.{prefix_len};
ghost use Rattle.cabal_lexer.specs.Opening.{field, braced_field, lower_case};
ghost use Rattle.cabal_lexer.specs.Layout.{ends, Begins, Fails, IsElement, At, first_value, texts};

use crate::lines::Line;
use plan_types::{Cause, Element, Fault, List, NoMemory, Text};
use std::alloc::Global;

/// A field, up to the first line that isn't deeper, and the number of lines that it takes.
pub fn read_field(
    alloc: Global,
    line: &Line,
    name: &str,
    first: &str,
    more: &[Line],
    braced: bool,
) -> Result<(Element, usize), NoMemory>
    ensures ok { IfOk result (λ r. (depth : ℕ) → Begins depth line.now (field (lower_case name.now) first.now)
        → IsElement depth braced line.now more.now r.0 (drop r.1 more.now)) }
    ensures taken { IfOk result (λ r. r.1 ≤ length more.now) }
{
    let count = run_len(more, line.indent() + 1, braced);
    let (values, _) = more.split_at(count);
    let field = Element::Field {
        line: line.number(),
        name: in_lower_case(alloc, name)?,
        values: values_of(alloc, first, values)?,
    };
    Ok((field, count))
}

/// A field in braces, and the number of lines up to its `}`, inclusive.
pub fn read_braced_field(
    alloc: Global,
    line: &Line,
    name: &str,
    more: &[Line],
) -> Result<(Element, usize), Fault>
    ensures ok { IfOk result (λ r. (depth : ℕ) (braced : Bool)
        → Begins depth line.now (braced_field (lower_case name.now))
        → IsElement depth braced line.now more.now r.0 (drop r.1 more.now)) }
    ensures taken { IfOk result (λ r. r.1 ≤ length more.now) }
    ensures err { (bound depth : ℕ) (braced : Bool) → ends bound braced line.now ≡ false
        → Begins depth line.now (braced_field (lower_case name.now)) →
        IfErr result (At (Fails bound depth braced (line.now ∷ more.now))) }
{
    let count = run_len(more, 0, true);
    if count == more.len() {
        return Err(Fault::At {
            line: line.number(),
            cause: Cause::UnclosedBrace,
        });
    }
    let (values, _) = more.split_at(count);
    let field = Element::Field {
        line: line.number(),
        name: in_lower_case(alloc, name)?,
        values: values_of(alloc, "", values)?,
    };
    Ok((field, count + 1))
}

/// The length of the longest prefix of lines inside the block.
fn run_len(lines: &[Line], bound: usize, braced: bool) -> usize
    ensures value { result ≡ prefix_len (λ line. not (ends bound braced line)) lines.now }
    ensures bounded { result ≤ length lines.now }
{
    lines
        .iter()
        .take_while(|line| !line.ends(bound, braced))
        .count()
}

/// A copy of a name, in lower case.
#[tactic(auto, unfolding(crate::specs::Opening::lower_case))]
pub fn in_lower_case(alloc: Global, name: &str) -> Result<Text, NoMemory>
    ensures { IfOk result (λ text. text ≡ lower_case name.now) }
{
    let name = name.to_ascii_lowercase(alloc)?;
    Ok(Text::from_string(name))
}

/// The values of a field: the first one, unless it is empty, and the texts of the lines.
fn values_of(alloc: Global, first: &str, lines: &[Line]) -> Result<List<Text>, NoMemory>
    ensures { IfOk result (λ values. values ≡ first_value first.now ++ texts lines.now) }
{
    let mut values = List::with_room(alloc, lines.len().saturating_add(1))?;
    push_first(alloc, &mut values, first)?;
    for line in lines {
        values.push(Text::from_str(alloc, line.text())?)?;
    }
    Ok(values)
}

fn push_first(alloc: Global, values: &mut List<Text>, first: &str) -> Result<(), NoMemory>
    ensures { OnOk result (values.new ≡ values.old ++ first_value first.now) }
{
    if !first.is_empty() {
        values.push(Text::from_str(alloc, first)?)?;
    }
    Ok(())
}
