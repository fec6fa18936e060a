// The line of a choice.
ghost use Rattle.std.specs.Prelude.{◌≡◌, ◌++◌, IfOk, OnOk, slice_get};
ghost use Rattle.plan_print.specs.Choice.{entry_text, instance_text, line_of, origin_text, switch_text, value_text};
ghost use Rattle.plan_types.specs.Packages.{entries_of};

use choice_problem::Choice;
use plan_types::{Entry, Index, Instance, NoMemory, Origin, Package, Text};
use qualified_goals::{Names, Part};
use std::alloc::Global;
use version_range::print_version;

// Appends the line of a choice: a word, the variable and the value.
pub fn push_choice(
    alloc: Global,
    text: &mut Text,
    word: &str,
    choice: Choice,
    index: &Index,
    names: &Names,
) -> Result<(), NoMemory>
    ensures { OnOk result (text.new ≡ text.old ++ line_of word.now index.now names.now choice) }
{
    text.push_str(word)?;
    text.push_str(" ")?;
    let shown = names.print_var(alloc, choice.var)?;
    text.push_str(shown.as_str())?;
    text.push_str(" ")?;
    push_value(alloc, text, choice, index)?;
    text.push_str("\n")
}

/// The printed value of a choice.
pub fn value_text(alloc: Global, choice: Choice, index: &Index) -> Result<Text, NoMemory>
    ensures { IfOk result (λ text. text ≡ value_text index.now choice) }
{
    let mut text = Text::new(alloc);
    push_value(alloc, &mut text, choice, index)?;
    Ok(text)
}

fn push_value(alloc: Global, text: &mut Text, choice: Choice, index: &Index) -> Result<(), NoMemory>
    ensures { OnOk result (text.new ≡ text.old ++ value_text index.now choice) }
{
    match choice.var.part {
        Part::Package => {
            let entries = Package::entries_at(index.packages.as_slice(), choice.var.package);
            push_entry(alloc, text, entries, choice.val)
        }
        Part::Flag(_) => text.push_str(switch_text(choice.val)),
        Part::Tests => text.push_str(switch_text(choice.val)),
        Part::Benches => text.push_str(switch_text(choice.val)),
    }
}

fn switch_text(value: u64) -> &'static str
    ensures { result.now ≡ switch_text value }
{
    if value == 1 { "on" } else { "off" }
}

fn push_entry(alloc: Global, text: &mut Text, entries: &[Entry], place: u64) -> Result<(), NoMemory>
    ensures { OnOk result (text.new ≡ text.old ++ entry_text (slice_get entries.now place)) }
{
    match entries.get(place as usize) {
        Some(entry) => push_instance(alloc, text, &entry.instance),
        None => Ok(()),
    }
}

fn push_instance(alloc: Global, text: &mut Text, instance: &Instance) -> Result<(), NoMemory>
    ensures { OnOk result (text.new ≡ text.old ++ instance_text instance.now) }
{
    let version = print_version(alloc, &instance.version)?;
    text.push_str(version.as_str())?;
    push_origin(text, instance.origin, instance.unit.as_str())
}

fn push_origin(text: &mut Text, origin: Origin, unit: &str) -> Result<(), NoMemory>
    ensures { OnOk result (text.new ≡ text.old ++ origin_text origin unit.now) }
{
    match origin {
        Origin::Local => text.push_str(" local"),
        Origin::Source => text.push_str(" source"),
        Origin::Installed => {
            text.push_str(" installed ")?;
            text.push_str(unit)
        }
    }
}
