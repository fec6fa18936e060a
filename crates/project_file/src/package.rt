// A `package` section, of which only the flags are read.
ghost use Rattle.std.specs.Prelude.{◌≡◌, ◌++◌, ◌||◌, IfOk, OnOk};
ghost use Rattle.plan_types.specs.Bytes.{joined_text};
ghost use Rattle.plan_types.specs.Name.{is_package_name};
ghost use Rattle.cabal_lexer.specs.Tree.{tree_of};
ghost use Rattle.project_file.specs.Parts.{FlagsAdded, flag_part, flags_said, is_every, package_parts, said_flags};

use crate::flags::flags_in;
use crate::part::{ProjectPart, ProjectSaid};
use plan_types::{
    Cause, Constraint, Element, FlagSet, List, NoMemory, Scope, Text, What, is_package_name,
    joined_text,
};
use std::alloc::Global;

/// Reads the section of one package, or of all (`*`).
pub(crate) fn read_package(
    alloc: Global,
    line: u32,
    args: &Text,
    items: &[Element],
    parts: &mut List<ProjectPart>,
) -> Result<(), NoMemory>
    ensures { OnOk result (parts.new ≡ parts.old ++ package_parts line args.now (tree_of items.now)) }
{
    if !is_about(args) {
        return parts.push(ProjectPart {
            line,
            said: ProjectSaid::Bad(Cause::BadName),
        });
    }
    for item in items {
        read_item(alloc, args, item, parts)?;
    }
    Ok(())
}

fn is_about(args: &Text) -> bool
    ensures { result ≡ (is_every args.now || is_package_name args.now) }
{
    is_every(args) || is_package_name(args.as_bytes())
}

fn is_every(args: &Text) -> bool
    ensures { result ≡ is_every args.now }
{
    args.as_str() == "*"
}

fn read_item(
    alloc: Global,
    args: &Text,
    item: &Element,
    parts: &mut List<ProjectPart>,
) -> Result<(), NoMemory>
    ensures { OnOk result (FlagsAdded args.now item.now parts.old parts.new) }
{
    match item {
        Element::Field { line, name, values } => {
            read_field(alloc, args, *line, name, values, parts)
        }
        Element::Section { .. } => Ok(()),
    }
}

fn read_field(
    alloc: Global,
    args: &Text,
    line: u32,
    name: &Text,
    values: &List<Text>,
    parts: &mut List<ProjectPart>,
) -> Result<(), NoMemory>
    ensures { OnOk result (parts.new ≡ parts.old ++ flag_part args.now line name.now (joined_text values.now)) }
{
    if name.as_str() != "flags" {
        return Ok(());
    }
    let text = joined_text(alloc, values.as_slice())?;
    let said = flags_said(alloc, args, &text)?;
    parts.push(ProjectPart { line, said })
}

fn flags_said(alloc: Global, args: &Text, text: &Text) -> Result<ProjectSaid, NoMemory>
    ensures { IfOk result (λ said. said ≡ flags_said args.now text.now) }
{
    if is_every(args) {
        return Ok(ProjectSaid::Bad(Cause::Unsupported));
    }
    match flags_in(alloc, text)? {
        Some(flags) => flag_constraint(alloc, args, flags),
        None => Ok(ProjectSaid::Bad(Cause::BadField)),
    }
}

// The flags as a constraint at top level.
fn flag_constraint(
    alloc: Global,
    args: &Text,
    flags: List<FlagSet>,
) -> Result<ProjectSaid, NoMemory>
    ensures { IfOk result (λ said. said ≡ said_flags args.now flags) }
{
    let package = args.copy()?;
    let mut constraints = List::new(alloc);
    constraints.push(Constraint {
        scope: Scope::Top,
        package,
        what: What::Flags(flags),
    })?;
    Ok(ProjectSaid::Constraints(constraints))
}
