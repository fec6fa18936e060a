// The items of a section in file order, each branch with its items inside.

ghost use Rattle.std.specs.Prelude.{◌≡◌, ◌++◌, ◌&&◌, [], ◌∷◌, List, true, false, None, Some, Option, map, IfOk, OnOk};
ghost use Rattle.std.specs.declared.result.Result.{Result};
ghost use Rattle.plan_types.specs.declared.condition.Cond.{Cond};
ghost use Rattle.plan_types.specs.declared.refusal.Cause.{Cause};
ghost use Rattle.section_syntax.specs.declared.branch.Branch.{Branch};
ghost use Rattle.section_syntax.specs.declared.part.SectionPart.{SectionPart};
ghost use Rattle.section_syntax.specs.Branch.{condition, branch_of, chain_of, OwnCondition};
ghost use Rattle.section_syntax.specs.Items.{AreParts, Items, SectionSays, branch_fits, is_import, may_import, placed};
ghost use Rattle.cabal_lexer.specs.Tree.{Tree, in_front, tree_of};
ghost use Rattle.section_syntax.specs.Readings.{OpensBranch, ReadsItem, ReadsItems, ReadsSection, KeepsKnowing};

use crate::branch::{Branch, conditions, own_condition};
use crate::element::SectionElement;
use crate::field::said_by;
use crate::part::{Said, SectionKind, SectionPart};
use crate::words::{BranchWord, FieldWord, InnerWord, field_word, inner_word};
use plan_types::{Element, Guard, List, NoMemory, Spec, Text};
use std::alloc::Global;

/// What stays the same for all items of a section.
#[derive(Clone, Copy)]
pub struct Inside {
    pub spec: Spec,
    pub kind: SectionKind,
}

/// What the items before an item leave for it.
#[derive(Drop)]
struct Before {
    /// Whether an import may come here.
    fits: bool,
    /// The condition that the chain directly before takes no branch; none if there is no such chain.
    chain: Option<Guard>,
}

/// The parts of a section.
pub fn read_parts(
    alloc: Global,
    inside: Inside,
    items: &[Element],
) -> Result<List<SectionPart>, NoMemory>
    ensures { IfOk result (AreParts inside.spec inside.kind (tree_of items.now)) }
{
    let mut branches = List::new(alloc);
    let mut parts = List::new(alloc);
    read_items(alloc, inside, items, &mut branches, &mut parts)?;
    Ok(parts)
}

/// `branches` ends as it began.
#[cycle(items)]
fn read_items(
    alloc: Global,
    inside: Inside,
    items: &[Element],
    branches: &mut List<Branch>,
    parts: &mut List<SectionPart>,
) -> Result<(), NoMemory>
    ensures parts { OnOk result (ReadsItems inside (tree_of items.now) branches.old parts.old parts.new) }
    ensures branches { OnOk result (branches.new ≡ branches.old) }
{
    let mut before = Before {
        fits: may_import(inside.spec, branches.as_slice()),
        chain: None,
    };
    for item in items {
        before = read_item(alloc, inside, item, before, branches, parts)?;
    }
    Ok(())
}

#[cycle(items)]
fn read_item(
    alloc: Global,
    inside: Inside,
    item: &Element,
    before: Before,
    branches: &mut List<Branch>,
    parts: &mut List<SectionPart>,
) -> Result<Before, NoMemory>
    ensures parts { IfOk result (λ after. ReadsItem inside item.now branches.old before after parts.old parts.new) }
    ensures fits { IfOk result (KeepsKnowing inside item.now branches.old before) }
    ensures branches { IfOk result (λ _. branches.new ≡ branches.old) }
{
    match item {
        Element::Field { line, name, values } => {
            let word = field_word(inside.kind, name.as_str());
            let said = said_by(alloc, inside.spec, word, *line, values, before.fits)?;
            place_some(alloc, branches.as_slice(), *line, said, parts)?;
            Ok(Before {
                fits: imports_behind(before.fits, word),
                chain: None,
            })
        }
        Element::Section {
            line,
            name,
            args,
            items,
        } => {
            let section = SectionElement {
                line: *line,
                name,
                args,
                items,
            };
            let chain = read_section(alloc, inside, &section, before.chain, branches, parts)?;
            Ok(Before { fits: false, chain })
        }
    }
}

/// Imports may come in a section, and from 3.0 on in its branches.
fn may_import(spec: Spec, branches: &[Branch]) -> bool
    ensures { result ≡ may_import spec branches.now }
{
    branches.is_empty() || !spec.is_old()
}

fn imports_behind(fits: bool, word: FieldWord) -> bool
    ensures { result ≡ (is_import word && fits) }
{
    word == FieldWord::Import && fits
}

fn place_some(
    alloc: Global,
    branches: &[Branch],
    line: u32,
    said: Option<Said>,
    parts: &mut List<SectionPart>,
) -> Result<(), NoMemory>
    ensures { OnOk result (parts.new ≡ parts.old ++ placed line (map condition branches.now) said) }
{
    match said {
        Some(said) => place(alloc, branches, line, said, parts),
        None => Ok(()),
    }
}

fn place(
    alloc: Global,
    branches: &[Branch],
    line: u32,
    said: Said,
    parts: &mut List<SectionPart>,
) -> Result<(), NoMemory>
    ensures { OnOk result (parts.new ≡ parts.old ++ placed line (map condition branches.now) (Some said)) }
{
    let branches = conditions(alloc, branches)?;
    parts.push(SectionPart {
        line,
        branches,
        said,
    })
}

/// The result is the chain for the next item.
#[cycle(items)]
fn read_section(
    alloc: Global,
    inside: Inside,
    section: &SectionElement<'_>,
    chain: Option<Guard>,
    branches: &mut List<Branch>,
    parts: &mut List<SectionPart>,
) -> Result<Option<Guard>, NoMemory>
    ensures parts { IfOk result (λ left. ReadsSection inside section.now.line section.now.name.now section.now.args.now
        (tree_of section.now.items.now) branches.old chain left parts.old parts.new) }
    ensures branches { IfOk result (λ _. branches.new ≡ branches.old) }
{
    match inner_word(inside.kind, section.name.as_str()) {
        InnerWord::Unread => Ok(None),
        InnerWord::Misplaced => {
            place(
                alloc,
                branches.as_slice(),
                section.line,
                Said::Misplaced,
                parts,
            )?;
            Ok(None)
        }
        InnerWord::Branch(word) => {
            let (branch, said) = open_branch(alloc, inside.spec, word, section.args, chain)?;
            place(alloc, branches.as_slice(), section.line, said, parts)?;
            branches.push(branch)?;
            read_items(alloc, inside, section.items.as_slice(), branches, parts)?;
            let left = close_branch(branches);
            Ok(left)
        }
    }
}

/// The branch, and what its first part says.
fn open_branch(
    alloc: Global,
    spec: Spec,
    word: BranchWord,
    args: &Text,
    chain: Option<Guard>,
) -> Result<(Branch, Said), NoMemory>
    ensures { IfOk result (λ opened. OpensBranch spec word args.now chain opened.0 opened.1) }
{
    let fits = word == BranchWord::If || chain.is_some();
    let condition = own_condition(alloc, spec, word, args)?;
    let branch = Branch::of(alloc, word, chain, &condition)?;
    let said = Said::Branch {
        word,
        condition,
        fits,
    };
    Ok((branch, said))
}

/// The chain that ends with the closed branch.
fn close_branch(branches: &mut List<Branch>) -> Option<Guard>
    ensures { (outer : List Branch) (branch : Branch) → branches.old ≡ outer ++ branch ∷ []
        → (result ≡ chain_of branch) × (branches.new ≡ outer) }
{
    match branches.pop() {
        Some(branch) => branch.chain,
        None => None,
    }
}
