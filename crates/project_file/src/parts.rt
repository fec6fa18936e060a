// The parts of a project file, in file order.
ghost use Rattle.std.specs.Prelude.{◌≡◌, ◌++◌, None, IfOk, OnOk};
ghost use Rattle.cabal_lexer.specs.Tree.{tree_of};
ghost use Rattle.project_file.specs.Parts.{Adds, IfTaken, IsBranch, ItemAdds, Says, SaysAll, SectionAdds, placed};

use crate::branch::{ProjectBranch, own_condition};
use crate::field::said_by;
use crate::package::read_package;
use crate::part::{ProjectPart, ProjectSaid};
use crate::words::{ProjectBranchWord, SectionWord, section_word};
use plan_types::{Cause, Element, Env, List, NoMemory, Text};
use std::alloc::Global;

/// The fields of an `Element::Section`.
#[derive(Drop)]
struct ProjectSection<'a> {
    line: u32,
    name: &'a Text,
    args: &'a Text,
    items: &'a List<Element>,
}

/// The parts that the elements of a file become.
pub(crate) fn read_parts(
    alloc: Global,
    env: &Env,
    items: &[Element],
) -> Result<List<ProjectPart>, NoMemory>
    ensures { IfOk result (Says env.now (tree_of items.now) None) }
{
    let mut parts = List::new(alloc);
    read_items(alloc, env, items, &mut parts)?;
    Ok(parts)
}

#[cycle(items)]
fn read_items(
    alloc: Global,
    env: &Env,
    items: &[Element],
    parts: &mut List<ProjectPart>,
) -> Result<(), NoMemory>
    ensures { OnOk result (Adds (SaysAll env.now items.now) parts.old parts.new) }
{
    let mut chain = None;
    for item in items {
        chain = read_item(alloc, env, item, chain, parts)?;
    }
    Ok(())
}

/// The result is the chain for the next item.
#[cycle(items)]
fn read_item(
    alloc: Global,
    env: &Env,
    item: &Element,
    chain: Option<bool>,
    parts: &mut List<ProjectPart>,
) -> Result<Option<bool>, NoMemory>
    ensures { IfOk result (λ left. ItemAdds env.now item.now chain left parts.old parts.new) }
{
    match item {
        Element::Field { line, name, values } => {
            let said = said_by(alloc, name, values)?;
            place(*line, said, parts)?;
            Ok(None)
        }
        Element::Section {
            line,
            name,
            args,
            items,
        } => read_section(
            alloc,
            env,
            &ProjectSection {
                line: *line,
                name,
                args,
                items,
            },
            chain,
            parts,
        ),
    }
}

fn place(
    line: u32,
    said: Option<ProjectSaid>,
    parts: &mut List<ProjectPart>,
) -> Result<(), NoMemory>
    ensures { OnOk result (parts.new ≡ parts.old ++ placed line said) }
{
    match said {
        Some(said) => parts.push(ProjectPart { line, said }),
        None => Ok(()),
    }
}

#[cycle(items)]
fn read_section(
    alloc: Global,
    env: &Env,
    section: &ProjectSection<'_>,
    chain: Option<bool>,
    parts: &mut List<ProjectPart>,
) -> Result<Option<bool>, NoMemory>
    ensures { IfOk result (λ left. SectionAdds env.now section.now.line section.now.name.now section.now.args.now
        section.now.items.now chain left parts.old parts.new) }
{
    let line = section.line;
    match section_word(section.name.as_str()) {
        SectionWord::Unread => Ok(None),
        SectionWord::Unsupported => {
            place(line, Some(ProjectSaid::Bad(Cause::Unsupported)), parts)?;
            Ok(None)
        }
        SectionWord::Warned => {
            let name = section.name.copy()?;
            place(line, Some(ProjectSaid::Warning(name)), parts)?;
            Ok(None)
        }
        SectionWord::Package => {
            read_package(alloc, line, section.args, section.items.as_slice(), parts)?;
            Ok(None)
        }
        SectionWord::Branch(word) => {
            let left = read_branch(alloc, env, word, section, chain, parts)?;
            Ok(left)
        }
    }
}

#[cycle(items)]
fn read_branch(
    alloc: Global,
    env: &Env,
    word: ProjectBranchWord,
    section: &ProjectSection<'_>,
    chain: Option<bool>,
    parts: &mut List<ProjectPart>,
) -> Result<Option<bool>, NoMemory>
    ensures { IfOk result (λ left. Adds (IsBranch env.now word section.now.line section.now.args.now chain
        (SaysAll env.now section.now.items.now) left) parts.old parts.new) }
{
    let own = own_condition(alloc, env, word, section.args)?;
    let branch = ProjectBranch { word, chain, own };
    place(section.line, branch.fault(), parts)?;
    let taken = branch.is_taken();
    read_taken(alloc, env, taken, section.items.as_slice(), parts)?;
    Ok(branch.chain_behind())
}

// The items of a branch that isn't taken aren't read.
#[cycle(items)]
fn read_taken(
    alloc: Global,
    env: &Env,
    taken: bool,
    items: &[Element],
    parts: &mut List<ProjectPart>,
) -> Result<(), NoMemory>
    ensures { OnOk result (Adds (IfTaken taken (SaysAll env.now items.now)) parts.old parts.new) }
{
    if taken {
        read_items(alloc, env, items, parts)
    } else {
        Ok(())
    }
}
