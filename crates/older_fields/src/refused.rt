// Texts that need a later cabal-version.

ghost use Rattle.std.specs.Prelude.{◌≡◌, ◌==◌, ◌||◌, IfOk};
ghost use Rattle.std.specs.List.{list_any};
ghost use Rattle.plan_types.specs.Bytes.{joined_text};
ghost use Rattle.cabal_lexer.specs.Tree.{Tree, in_front, tree_of};
ghost use Rattle.older_fields.specs.Refused.{is_depends, has_caret, ends_with_comma, has_outer_comma, is_later, later_at, field_fault, or_else, first_fault};

use crate::edition::Edition;
use cabal_lexer::trim;
use plan_types::{Cause, Element, List, NoMemory, Text, joined_text};
use std::alloc::Global;
use text_grammar::begins_with;

/// A cause and its line.
#[derive(Clone, Copy, Debug, PartialEq, Eq)]
pub struct At {
    pub line: u32,
    pub cause: Cause,
}

fn is_depends(name: &str) -> bool
    ensures { result ≡ is_depends name.now }
{
    match name {
        "build-depends" => true,
        "build-tool-depends" => true,
        "setup-depends" => true,
        _ => false,
    }
}

fn has_caret(text: &[u8]) -> bool
    ensures { result ≡ has_caret text.now }
{
    text.iter().any(|byte| *byte == b'^')
}

fn ends_with_comma(text: &[u8]) -> bool
    ensures { result ≡ ends_with_comma text.now }
{
    match text.last() {
        Some(byte) => *byte == b',',
        None => false,
    }
}

fn has_outer_comma(text: &str) -> bool
    ensures { result ≡ has_outer_comma text.now }
{
    let inner = trim(text);
    begins_with(inner.as_bytes(), b',') || ends_with_comma(inner.as_bytes())
}

fn is_later(edition: Edition, text: &str) -> bool
    ensures { result ≡ is_later edition text.now }
{
    let caret = has_caret(text.as_bytes());
    let comma = has_outer_comma(text);
    (edition.is_before(Edition::V2_0) && caret) || (edition.is_before(Edition::V2_2) && comma)
}

fn field_fault(
    alloc: Global,
    edition: Edition,
    line: u32,
    name: &Text,
    values: &List<Text>,
) -> Result<Option<At>, NoMemory>
    ensures { IfOk result (λ found. found ≡ field_fault edition line name.now values.now) }
{
    if !is_depends(name.as_str()) {
        return Ok(None);
    }
    let text = joined_text(alloc, values.as_slice())?;
    Ok(later_at(edition, line, text.as_str()))
}

fn later_at(edition: Edition, line: u32, text: &str) -> Option<At>
    ensures { result ≡ later_at edition line text.now }
{
    if is_later(edition, text) {
        Some(At {
            line,
            cause: Cause::NeedsVersion,
        })
    } else {
        None
    }
}

/// The first text that needs a later version than the file's.
#[cycle(faults)]
pub fn first_fault(
    alloc: Global,
    edition: Edition,
    items: &[Element],
) -> Result<Option<At>, NoMemory>
    ensures { IfOk result (λ found. found ≡ first_fault edition (tree_of items.now)) }
{
    for item in items {
        let found = fault_in(alloc, edition, item)?;
        if found.is_some() {
            return Ok(found);
        }
    }
    Ok(None)
}

#[cycle(faults)]
fn fault_in(alloc: Global, edition: Edition, item: &Element) -> Result<Option<At>, NoMemory>
    ensures { IfOk result (λ found. (behind : Tree)
        → first_fault edition (in_front item.now behind) ≡ or_else found (first_fault edition behind)) }
{
    match item {
        Element::Field { line, name, values } => field_fault(alloc, edition, *line, name, values),
        Element::Section { items, .. } => first_fault(alloc, edition, items.as_slice()),
    }
}
