// Constraints as the text of a project file.
ghost use Rattle.std.specs.Prelude.{◌≡◌, ◌++◌, IfOk, OnOk, flat_map, codes, if◌then◌else◌};
ghost use Rattle.std.specs.List.{AllByRecursion};
ghost use Rattle.version_range.specs.Print.{range_text};
ghost use Rattle.freeze_text.specs.Reads.{IsPlainConstraint, IsReadAs};
ghost use Rattle.freeze_text.specs.Text.{end_text, flag_text, freeze_text, line_text, lines_text, scope_text, what_text};

use crate::laws::text_reads_back;
use plan_types::{Constraint, FlagSet, NoMemory, Project, Range, Scope, Text, What};
use std::alloc::Global;
use version_range::print_range;

/// The constraints of a project as a project file: one a line, with commas between; empty without constraints.
pub fn text_of_freeze(alloc: Global, project: &Project) -> Result<Text, NoMemory>
    ensures text { IfOk result (λ text. text ≡ freeze_text project.now.constraints) }
    ensures reads { IfOk result (λ text. AllByRecursion IsPlainConstraint project.now.constraints
        → IsReadAs text project.now.constraints) }
{
    text_reads_back();
    printed(alloc, project.constraints.as_slice())
}

fn printed(alloc: Global, constraints: &[Constraint]) -> Result<Text, NoMemory>
    ensures { IfOk result (λ text. text ≡ freeze_text constraints.now) }
{
    let mut text = Text::new(alloc);
    if !constraints.is_empty() {
        text.push_str("constraints:\n")?;
        push_lines(alloc, &mut text, constraints)?;
    }
    Ok(text)
}

fn push_lines(alloc: Global, text: &mut Text, constraints: &[Constraint]) -> Result<(), NoMemory>
    ensures { OnOk result (text.new ≡ text.old ++ lines_text constraints.now) }
{
    for (place, constraint) in constraints.iter().enumerate() {
        push_line(alloc, text, constraint, place + 1 == constraints.len())?;
    }
    Ok(())
}

fn push_line(
    alloc: Global,
    text: &mut Text,
    constraint: &Constraint,
    last: bool,
) -> Result<(), NoMemory>
    ensures { OnOk result (text.new ≡ text.old ++ line_text constraint.now last) }
{
    text.push_str("    ")?;
    push_scope(text, &constraint.scope)?;
    text.push_str(constraint.package.as_str())?;
    push_what(alloc, text, &constraint.what)?;
    text.push_str(line_end(last))
}

fn line_end(last: bool) -> &'static str
    ensures { result.now ≡ end_text last }
{
    if last { "\n" } else { ",\n" }
}

fn push_scope(text: &mut Text, scope: &Scope) -> Result<(), NoMemory>
    ensures { OnOk result (text.new ≡ text.old ++ scope_text scope.now) }
{
    match scope {
        Scope::Top => Ok(()),
        Scope::Any => text.push_str("any."),
        Scope::Setup => text.push_str("setup."),
        Scope::SetupOf(owner) => {
            text.push_str(owner.as_str())?;
            text.push_str(":setup.")
        }
    }
}

fn push_what(alloc: Global, text: &mut Text, what: &What) -> Result<(), NoMemory>
    ensures { OnOk result (text.new ≡ text.old ++ what_text what.now) }
{
    match what {
        What::Range(range) => push_range(alloc, text, range),
        What::Installed => text.push_str(" installed"),
        What::Source => text.push_str(" source"),
        What::Flags(sets) => push_flags(text, sets.as_slice()),
        What::Tests => text.push_str(" test"),
        What::Benches => text.push_str(" bench"),
    }
}

fn push_range(alloc: Global, text: &mut Text, range: &Range) -> Result<(), NoMemory>
    ensures { OnOk result (text.new ≡ text.old ++ codes " " ++ range_text range.now) }
{
    let printed = print_range(alloc, range)?;
    text.push_str(" ")?;
    text.push_str(printed.as_str())
}

fn push_flags(text: &mut Text, sets: &[FlagSet]) -> Result<(), NoMemory>
    ensures { OnOk result (text.new ≡ text.old ++ flat_map flag_text sets.now) }
{
    for set in sets {
        push_flag(text, set)?;
    }
    Ok(())
}

fn push_flag(text: &mut Text, set: &FlagSet) -> Result<(), NoMemory>
    ensures { OnOk result (text.new ≡ text.old ++ flag_text set.now) }
{
    text.push_str(sign(set.on))?;
    text.push_str(set.name.as_str())
}

fn sign(on: bool) -> &'static str
    ensures { result.now ≡ (if on then codes " +" else codes " -") }
{
    if on { " +" } else { " -" }
}
