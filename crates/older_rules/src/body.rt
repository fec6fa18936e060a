// The items inside a section.

ghost use Rattle.std.specs.Prelude.{◌≡◌, ◌++◌, ◌∷◌, [], false, IfOk, OnOk};
ghost use Rattle.plan_types.specs.declared.element.Element.TheVariants.{Field, Section};
ghost use Rattle.cabal_lexer.specs.Tree.{tree_of};
ghost use Rattle.older_rules.specs.Bodies.{field_rule, place_of, misplaced, chained_after, kept, told, field_kept, field_told, tool_field, Keeps, Tells};

use crate::change::Change;
use crate::tools::{commas, tool_texts};
use older_fields::{Edition, NameMap, push_copy, push_value};
use plan_types::{Element, List, NoMemory, Text, joined_text};
use std::alloc::Global;

/// What stays the same for all items of a section.
#[derive(Clone, Copy)]
pub struct Inside<'a> {
    pub edition: Edition,
    pub tools: &'a NameMap,
}

/// What becomes of a field.
#[derive(Clone, Copy, Debug, PartialEq, Eq)]
pub enum FieldRule {
    Dropped,
    Tools,
    Kept,
}

/// What becomes of a section inside a section.
#[derive(Clone, Copy, Debug, PartialEq, Eq)]
pub enum Place {
    /// Kept. An `else` may follow.
    Opens,
    Closes,
    Dropped,
}

fn field_rule(edition: Edition, name: &str) -> FieldRule
    ensures { result ≡ field_rule edition name.now }
{
    match name {
        "import" => {
            if edition.is_before(Edition::V2_2) {
                FieldRule::Dropped
            } else {
                FieldRule::Kept
            }
        }
        "build-tools" => {
            if edition.is_before(Edition::V2_4) {
                FieldRule::Tools
            } else {
                FieldRule::Kept
            }
        }
        _ => FieldRule::Kept,
    }
}

fn place_of(edition: Edition, chained: bool, name: &str) -> Place
    ensures { result ≡ place_of edition chained name.now }
{
    match name {
        "if" => Place::Opens,
        "elif" => {
            if chained && !edition.is_before(Edition::V2_2) {
                Place::Opens
            } else {
                misplaced(edition)
            }
        }
        "else" => {
            if chained {
                Place::Closes
            } else {
                misplaced(edition)
            }
        }
        _ => misplaced(edition),
    }
}

fn misplaced(edition: Edition) -> Place
    ensures { result ≡ misplaced edition }
{
    if edition.is_before(Edition::V2_4) {
        Place::Dropped
    } else {
        Place::Closes
    }
}

// Whether an `else` may follow a field: it is passed over, and an `else` might come before it.
fn chained_after(rule: FieldRule, chained: bool) -> bool
    ensures { result ≡ chained_after rule chained }
{
    rule == FieldRule::Dropped && chained
}

/// The items of a section, rewritten.
#[cycle(body)]
pub fn rewritten(
    alloc: Global,
    inside: &Inside<'_>,
    items: &[Element],
    changes: &mut List<Change>,
) -> Result<List<Element>, NoMemory>
    ensures items { IfOk result (λ out. out ≡ kept inside.now.edition inside.now.tools.now.entries false (tree_of items.now)) }
    ensures changes { OnOk result (changes.new ≡ changes.old ++ told inside.now.edition inside.now.tools.now.entries false (tree_of items.now)) }
{
    let mut out = List::new(alloc);
    let mut chained = false;
    for item in items {
        chained = rewrite(alloc, inside, item, chained, &mut out, changes)?;
    }
    Ok(out)
}

/// The result is whether an `else` may follow.
#[cycle(body)]
fn rewrite(
    alloc: Global,
    inside: &Inside<'_>,
    item: &Element,
    chained: bool,
    out: &mut List<Element>,
    changes: &mut List<Change>,
) -> Result<bool, NoMemory>
    ensures items { IfOk result (λ after. Keeps inside.now.edition inside.now.tools.now.entries item.now chained after out.old out.new) }
    ensures changes { IfOk result (λ after. Tells inside.now.edition inside.now.tools.now.entries item.now chained after changes.old changes.new) }
{
    match item {
        Element::Field { line, name, values } => {
            let rule = field_rule(inside.edition, name.as_str());
            push_field(alloc, inside.tools, rule, *line, name, values, out, changes)?;
            Ok(chained_after(rule, chained))
        }
        Element::Section {
            line,
            name,
            args,
            items,
        } => match place_of(inside.edition, chained, name.as_str()) {
            Place::Dropped => {
                changes.push(Change::Dropped { line: *line })?;
                Ok(false)
            }
            Place::Opens => {
                let inner = rewritten(alloc, inside, items.as_slice(), changes)?;
                push_section(*line, name, args, inner, out)?;
                Ok(true)
            }
            Place::Closes => {
                let inner = rewritten(alloc, inside, items.as_slice(), changes)?;
                push_section(*line, name, args, inner, out)?;
                Ok(false)
            }
        },
    }
}

pub fn push_section(
    line: u32,
    name: &Text,
    args: &Text,
    items: List<Element>,
    out: &mut List<Element>,
) -> Result<(), NoMemory>
    ensures { OnOk result (out.new ≡ out.old ++ Section line name.now args.now items ∷ []) }
{
    let name = name.copy()?;
    let args = args.copy()?;
    out.push(Element::Section {
        line,
        name,
        args,
        items,
    })
}

/// Pushes what becomes of a field.
fn push_field(
    alloc: Global,
    tools: &NameMap,
    rule: FieldRule,
    line: u32,
    name: &Text,
    values: &List<Text>,
    out: &mut List<Element>,
    changes: &mut List<Change>,
) -> Result<(), NoMemory>
    ensures items { OnOk result (out.new ≡ out.old ++ field_kept tools.now.entries rule line name.now values.now) }
    ensures changes { OnOk result (changes.new ≡ changes.old ++ field_told tools.now.entries rule line values.now) }
{
    match rule {
        FieldRule::Dropped => changes.push(Change::Dropped { line }),
        FieldRule::Tools => {
            changes.push(Change::Tools { line })?;
            let text = joined_text(alloc, values.as_slice())?;
            let found = tool_texts(alloc, tools, line, text.as_str(), changes)?;
            push_tools(alloc, line, found, out)
        }
        FieldRule::Kept => push_copy(alloc, line, name, values, out),
    }
}

fn push_tools(
    alloc: Global,
    line: u32,
    found: List<Text>,
    out: &mut List<Element>,
) -> Result<(), NoMemory>
    ensures { OnOk result (out.new ≡ out.old ++ tool_field line found) }
{
    if found.is_empty() {
        return Ok(());
    }
    let text = commas(alloc, found.as_slice())?;
    push_value(alloc, line, "build-tool-depends", text, out)
}
