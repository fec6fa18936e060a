// Elements of a file, one by one.

ghost use Rattle.std.specs.Prelude.{◌≡◌, find, reverse, take, length, ◌≤◌, IfOk};
ghost use Rattle.std.specs.List.{prefix_len};
ghost use Rattle.std.specs.Option.{option_copied};
ghost use Rattle.older_fields.specs.Items.{is_field, is_field_named, line_of, text_of, leading, last_named};

use plan_types::{Element, NoMemory, Text, joined_text};
use std::alloc::Global;

pub fn is_field(item: &Element) -> bool
    ensures { result ≡ is_field item.now }
{
    match item {
        Element::Field { .. } => true,
        Element::Section { .. } => false,
    }
}

pub fn is_field_named(item: &Element, wanted: &str) -> bool
    ensures { result ≡ is_field_named wanted.now item.now }
{
    match item {
        Element::Field { name, .. } => name.as_str() == wanted,
        Element::Section { .. } => false,
    }
}

pub fn line_of(item: &Element) -> u32
    ensures { result ≡ line_of item.now }
{
    match item {
        Element::Field { line, .. } => *line,
        Element::Section { line, .. } => *line,
    }
}

/// The text of a field.
pub fn text_of(alloc: Global, item: &Element) -> Result<Text, NoMemory>
    ensures { IfOk result (λ text. text ≡ text_of item.now) }
{
    match item {
        Element::Field { values, .. } => joined_text(alloc, values.as_slice()),
        Element::Section { .. } => Ok(Text::new(alloc)),
    }
}

/// The number of fields before the first section.
pub fn leading(items: &[Element]) -> usize
    ensures count { result ≡ leading items.now }
    ensures within { result ≤ length items.now }
{
    items.iter().take_while(|item| is_field(item)).count()
}

/// The last field with this name.
pub fn last_named<'a>(items: &'a [Element], name: &str) -> Option<&'a Element>
    ensures { option_copied result ≡ last_named name.now items.now }
{
    items.iter().rev().find(|item| is_field_named(item, name))
}
