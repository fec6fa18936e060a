// Copies of elements, and elements with new texts.

ghost use Rattle.std.specs.Prelude.{◌≡◌, ◌++◌, ◌∷◌, [], IfOk, OnOk};
ghost use Rattle.plan_types.specs.declared.element.Element.TheVariants.{Field, Section};

use plan_types::{Element, List, NoMemory, Text};
use std::alloc::Global;

/// Pushes a copy of a field.
pub fn push_copy(
    alloc: Global,
    line: u32,
    name: &Text,
    values: &List<Text>,
    out: &mut List<Element>,
) -> Result<(), NoMemory>
    ensures { OnOk result (out.new ≡ out.old ++ Field line name.now values.now ∷ []) }
{
    let name = name.copy()?;
    let values = copied(alloc, values.as_slice())?;
    out.push(Element::Field { line, name, values })
}

fn copied(alloc: Global, texts: &[Text]) -> Result<List<Text>, NoMemory>
    ensures { IfOk result (λ copied. copied ≡ texts.now) }
{
    let mut copies = List::new(alloc);
    for text in texts {
        copies.push(text.copy()?)?;
    }
    Ok(copies)
}

/// Pushes a field with one value.
pub fn push_value(
    alloc: Global,
    line: u32,
    name: &str,
    value: Text,
    out: &mut List<Element>,
) -> Result<(), NoMemory>
    ensures { OnOk result (out.new ≡ out.old ++ Field line name.now (value ∷ []) ∷ []) }
{
    let name = Text::from_str(alloc, name)?;
    let mut values = List::new(alloc);
    values.push(value)?;
    out.push(Element::Field { line, name, values })
}

/// Pushes a field with one value, which is copied.
pub fn push_word(
    alloc: Global,
    line: u32,
    name: &str,
    value: &str,
    out: &mut List<Element>,
) -> Result<(), NoMemory>
    ensures { OnOk result (out.new ≡ out.old ++ Field line name.now (value.now ∷ []) ∷ []) }
{
    let value = Text::from_str(alloc, value)?;
    push_value(alloc, line, name, value, out)
}

/// Pushes a section.
pub fn push_section(
    alloc: Global,
    line: u32,
    name: &str,
    args: Text,
    items: List<Element>,
    out: &mut List<Element>,
) -> Result<(), NoMemory>
    ensures { OnOk result (out.new ≡ out.old ++ Section line name.now args items ∷ []) }
{
    let name = Text::from_str(alloc, name)?;
    out.push(Element::Section {
        line,
        name,
        args,
        items,
    })
}
