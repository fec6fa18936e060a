// A section's element, its parts by name.

use plan_types::{Element, List, Text};

/// The fields of an `Element::Section`.
#[derive(Drop)]
pub struct SectionElement<'a> {
    pub line: u32,
    pub name: &'a Text,
    pub args: &'a Text,
    pub items: &'a List<Element>,
}
