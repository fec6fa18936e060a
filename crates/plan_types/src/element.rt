// The fields and sections of a file.
ghost use Rattle.std.specs.Prelude.{IfOk, OnOk, ◌≡◌, ◌++◌};
ghost use Rattle.plan_types.specs.Bytes.{joined_text};

use crate::{List, NoMemory, Text};
use std::alloc::Global;

/// A part of a file: a field, or a section with its own items. Lines are numbered from 1. Names are in lower case.
#[derive(Debug, Drop)]
pub enum Element {
    Field {
        line: u32,
        name: Text,
        values: List<Text>,
    },
    Section {
        line: u32,
        name: Text,
        args: Text,
        items: List<Element>,
    },
}

/// The text of a field: its values joined by single spaces.
pub fn joined_text(alloc: Global, values: &[Text]) -> Result<Text, NoMemory>
    ensures { IfOk result (λ text. text ≡ joined_text values.now) }
{
    let mut text = Text::new(alloc);
    let mut rest = values;
    while let [value, more @ ..] = rest {
        text.push_str(value.as_str())?;
        if !more.is_empty() {
            text.push_str(" ")?;
        }
        rest = more;
    }
    Ok(text)
}
