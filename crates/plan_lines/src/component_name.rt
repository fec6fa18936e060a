// Names of components, as a plan prints them.
ghost use Rattle.std.specs.Prelude.{◌≡◌, IfOk, slice_get};
ghost use Rattle.std.specs.Option.{option_copied};
ghost use Rattle.plan_lines.specs.ComponentName.{component_name, kind_word, name_of_one, piece_name};

use plan_components::Piece;
use plan_types::{CompKind, Component, Description, NoMemory, Text};
use std::alloc::Global;

/// The name of a piece of a source instance.
pub(crate) fn piece_name(alloc: Global, d: &Description, piece: Piece) -> Result<Text, NoMemory>
    ensures { IfOk result (λ name. name ≡ piece_name d.now piece) }
{
    match piece {
        Piece::Whole => Text::from_str(alloc, "package"),
        Piece::One(place) => name_of_one(alloc, d.components.as_slice().get(place as usize)),
    }
}

fn name_of_one(alloc: Global, component: Option<&Component>) -> Result<Text, NoMemory>
    ensures { IfOk result (λ name. name ≡ name_of_one (option_copied component.entry)) }
{
    match component {
        None => Ok(Text::new(alloc)),
        Some(component) => component_name(alloc, component.kind, component.name.as_str()),
    }
}

fn component_name(alloc: Global, kind: CompKind, name: &str) -> Result<Text, NoMemory>
    ensures { IfOk result (λ text. text ≡ component_name kind name.now) }
{
    let mut text = Text::from_str(alloc, kind_word(kind))?;
    if !name.is_empty() {
        text.push_str(":")?;
        text.push_str(name)?;
    }
    Ok(text)
}

fn kind_word(kind: CompKind) -> &'static str
    ensures { result.now ≡ kind_word kind }
{
    match kind {
        CompKind::Library => "lib",
        CompKind::Executable => "exe",
        CompKind::Test => "test",
        CompKind::Bench => "bench",
        CompKind::Foreign => "flib",
    }
}
