// The canonical text of a tree.
ghost use Rattle.std.specs.Prelude.{◌≡◌, ◌++◌, [], ◌∷◌, IfOk, OnOk};
ghost use Rattle.cabal_lexer.specs.Canonical.{value_lines, field_text, section_line, element_text, items_text, canonical};

use crate::lines::is_lone;
use plan_types::{Element, List, NoMemory, Text};
use std::alloc::Global;

/// The canonical text of a tree.
///
/// An element at depth d is indented by 2 (d - 1) spaces. The first value of a field follows its colon,
/// unless it is `{`. Each other value has a line of its own, 4 spaces deeper than the field.
pub fn print_elements(alloc: Global, items: &List<Element>) -> Result<Text, NoMemory>
    ensures { IfOk result (λ text. text ≡ canonical items.now) }
{
    let mut text = Text::new(alloc);
    print_items(alloc, &mut text, "", items.as_slice())?;
    Ok(text)
}

#[cycle(print)]
fn print_items(
    alloc: Global,
    text: &mut Text,
    indent: &str,
    items: &[Element],
) -> Result<(), NoMemory>
    ensures { OnOk result (text.new ≡ text.old ++ items_text items.now indent.now) }
{
    for item in items {
        print_element(alloc, text, indent, item)?;
    }
    Ok(())
}

#[cycle(print)]
fn print_element(
    alloc: Global,
    text: &mut Text,
    indent: &str,
    element: &Element,
) -> Result<(), NoMemory>
    ensures { OnOk result (text.new ≡ text.old ++ element_text element.now indent.now) }
{
    match element {
        Element::Field { name, values, .. } => {
            print_field(text, indent, name.as_str(), values.as_slice())
        }
        Element::Section {
            name,
            args,
            items,
            ..
        } => {
            print_section_line(text, indent, name.as_str(), args.as_str())?;
            let inner = deeper(alloc, indent)?;
            print_items(alloc, text, inner.as_str(), items.as_slice())
        }
    }
}

fn deeper(alloc: Global, indent: &str) -> Result<Text, NoMemory>
    ensures { IfOk result (λ inner. inner ≡ indent.now ++ 32 ∷ 32 ∷ []) }
{
    let mut inner = Text::from_str(alloc, indent)?;
    inner.push_str("  ")?;
    Ok(inner)
}

#[tactic(auto, unfolding(crate::specs::Canonical::section_line))]
fn print_section_line(text: &mut Text, indent: &str, name: &str, args: &str) -> Result<(), NoMemory>
    ensures { OnOk result (text.new ≡ text.old ++ section_line indent.now name.now args.now) }
{
    text.push_str(indent)?;
    text.push_str(name)?;
    if !args.is_empty() {
        text.push_str(" ")?;
        text.push_str(args)?;
    }
    text.push_str("\n")
}

#[tactic(auto, unfolding(crate::specs::Canonical::field_text))]
fn print_field(text: &mut Text, indent: &str, name: &str, values: &[Text]) -> Result<(), NoMemory>
    ensures { OnOk result (text.new ≡ text.old ++ field_text indent.now name.now values.now) }
{
    text.push_str(indent)?;
    text.push_str(name)?;
    match values {
        [] => text.push_str(":\n"),
        [first, others @ ..] => {
            if is_lone(first.as_str(), b'{') {
                text.push_str(":\n")?;
                print_values(text, indent, values)
            } else {
                print_first(text, first.as_str())?;
                print_values(text, indent, others)
            }
        }
    }
}

fn print_first(text: &mut Text, first: &str) -> Result<(), NoMemory>
    ensures { OnOk result (text.new ≡ text.old ++ (58 ∷ 32 ∷ []) ++ first.now ++ 10 ∷ []) }
{
    text.push_str(": ")?;
    text.push_str(first)?;
    text.push_str("\n")
}

#[tactic(auto, unfolding(crate::specs::Canonical::value_lines))]
fn print_values(text: &mut Text, indent: &str, values: &[Text]) -> Result<(), NoMemory>
    ensures { OnOk result (text.new ≡ text.old ++ value_lines indent.now values.now) }
{
    for value in values {
        print_value(text, indent, value.as_str())?;
    }
    Ok(())
}

fn print_value(text: &mut Text, indent: &str, value: &str) -> Result<(), NoMemory>
    ensures { OnOk result (text.new ≡ text.old ++ indent.now ++ (32 ∷ 32 ∷ 32 ∷ 32 ∷ [])
        ++ value.now ++ 10 ∷ []) }
{
    text.push_str(indent)?;
    text.push_str("    ")?;
    text.push_str(value)?;
    text.push_str("\n")
}
