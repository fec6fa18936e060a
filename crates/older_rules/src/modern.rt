// A file under a cabal-version that is read.

ghost use Rattle.std.specs.Prelude.{◌≡◌, ◌++◌, IfOk, IfErr, OnOk};
ghost use Rattle.std.specs.declared.result.Result.TheVariants.{Ok, Err};
ghost use Rattle.plan_types.specs.Refusal.{RefusesAt};
ghost use Rattle.older_fields.specs.Refused.{or_else};
ghost use Rattle.older_rules.specs.Modern.{owner_of, names_of, tools_of, lacks_setup, setup_fault, is_implied, setup_items, setup_section, setup_said, setup_told, sections, sections_told, all_items, all_changes, fault_of, file, sectioned_told, IsFile, IsModern};

use crate::change::Change;
use crate::heads::{is_custom, push_header, push_heads, push_type, type_line};
use crate::tops::{Rewriting, component_names, has_setup, name_fault, own_tools, push_tops};
use older_fields::{
    At, Edition, Header, NameMap, all_fields, any_moves, first_fault, flat, header_of,
    is_too_large, last_named, leading, push_section, push_word, renamed, text_of,
};
use plan_types::{Cause, Element, Fault, List, NoMemory, Text};
use std::alloc::Global;

/// The elements of a file under a cabal-version that is read, and what was changed.
#[derive(Debug, Drop)]
pub struct Modern {
    pub items: List<Element>,
    pub changes: List<Change>,
}

/// The package's name, empty if there is none.
fn owner_of(alloc: Global, heads: &[Element]) -> Result<Text, NoMemory>
    ensures { IfOk result (λ name. name ≡ owner_of heads.now) }
{
    match last_named(heads, "name") {
        None => Ok(Text::new(alloc)),
        Some(item) => text_of(alloc, item),
    }
}

/// Whether the package has a setup script, and no word of its dependencies.
fn lacks_setup(
    alloc: Global,
    edition: Edition,
    heads: &[Element],
    rest: &[Element],
) -> Result<bool, NoMemory>
    ensures { IfOk result (λ lacks. lacks ≡ lacks_setup edition heads.now rest.now) }
{
    let custom = is_custom(alloc, edition, heads)?;
    Ok(custom && !has_setup(rest))
}

/// From 1.24 on, the dependencies of a setup script are stated.
fn setup_fault(header: Header, lacks: bool, line: u32) -> Option<At>
    ensures { result ≡ setup_fault header.edition lacks line }
{
    if lacks
        && !header.edition.is_before(Edition::V1_24)
        && header.edition.is_before(Edition::V2_4)
    {
        Some(At {
            line,
            cause: Cause::MissingField,
        })
    } else {
        None
    }
}

fn is_implied(edition: Edition, lacks: bool) -> bool
    ensures { result ≡ is_implied edition lacks }
{
    lacks && edition.is_before(Edition::V1_24)
}

// The implicit dependencies of a setup script.
fn push_setup(
    alloc: Global,
    header: Header,
    lacks: bool,
    out: &mut List<Element>,
    changes: &mut List<Change>,
) -> Result<(), NoMemory>
    ensures items { OnOk result (out.new ≡ out.old ++ setup_said header lacks) }
    ensures changes { OnOk result (changes.new ≡ changes.old ++ setup_told header lacks) }
{
    if !is_implied(header.edition, lacks) {
        return Ok(());
    }
    changes.push(Change::Setup)?;
    push_setup_section(alloc, header, out)
}

fn push_setup_section(
    alloc: Global,
    header: Header,
    out: &mut List<Element>,
) -> Result<(), NoMemory>
    ensures { OnOk result (out.new ≡ out.old ++ setup_section header) }
{
    let items = setup_items(alloc, header)?;
    push_section(
        alloc,
        header.line,
        "custom-setup",
        Text::new(alloc),
        items,
        out,
    )
}

fn setup_items(alloc: Global, header: Header) -> Result<List<Element>, NoMemory>
    ensures { IfOk result (λ items. items ≡ setup_items header) }
{
    let mut items = List::new(alloc);
    let value = header.edition.setup_depends();
    push_word(alloc, header.line, "setup-depends", value, &mut items)?;
    Ok(items)
}

/// The new names of a file's components.
fn names_of(alloc: Global, rest: &[Element]) -> Result<NameMap, NoMemory>
    ensures { IfOk result (λ names. names.entries ≡ names_of rest.now) }
{
    let all = component_names(alloc, rest)?;
    renamed(alloc, all.as_slice())
}

/// The package's own executables.
fn tools_of(
    alloc: Global,
    names: &NameMap,
    heads: &[Element],
    rest: &[Element],
) -> Result<NameMap, NoMemory>
    requires { names.now.entries ≡ names_of rest.now }
    ensures { IfOk result (λ tools. tools.entries ≡ tools_of heads.now rest.now) }
{
    let owner = owner_of(alloc, heads)?;
    own_tools(alloc, &owner, names, rest)
}

/// The sections of a file, rewritten.
fn sections(
    alloc: Global,
    edition: Edition,
    names: &NameMap,
    heads: &[Element],
    rest: &[Element],
    changes: &mut List<Change>,
) -> Result<List<Element>, NoMemory>
    requires { names.now.entries ≡ names_of rest.now }
    ensures items { IfOk result (λ out. out ≡ sections edition heads.now rest.now) }
    ensures changes { OnOk result (changes.new ≡ changes.old ++ sections_told edition heads.now rest.now) }
{
    let tools = tools_of(alloc, names, heads, rest)?;
    let rewriting = Rewriting {
        edition,
        tools: &tools,
        names,
    };
    let mut out = List::new(alloc);
    push_tops(alloc, &rewriting, rest, &mut out, changes)?;
    Ok(out)
}

/// The file with these sections.
fn joined(
    alloc: Global,
    header: Header,
    heads: &[Element],
    lacks: bool,
    sections: List<Element>,
    told: List<Change>,
    more: List<Change>,
) -> Result<Modern, NoMemory>
    ensures items { IfOk result (λ modern. modern.items ≡ all_items header heads.now lacks sections) }
    ensures changes { IfOk result (λ modern. modern.changes ≡ all_changes header heads.now lacks told more) }
{
    let mut items = List::new(alloc);
    let mut changes = told;
    let mut sections = sections;
    let mut more = more;
    push_header(alloc, header, heads, &mut items, &mut changes)?;
    push_type(alloc, header, heads, &mut items, &mut changes)?;
    push_heads(alloc, header.edition, heads, &mut items, &mut changes)?;
    items.append(&mut sections)?;
    changes.append(&mut more)?;
    push_setup(alloc, header, lacks, &mut items, &mut changes)?;
    Ok(Modern { items, changes })
}

/// The refusal of a file with these sections.
fn fault(
    alloc: Global,
    header: Header,
    named: Option<At>,
    lacks: bool,
    line: u32,
    sections: &[Element],
) -> Result<Option<At>, NoMemory>
    ensures { IfOk result (λ found. found ≡ or_else named (fault_of header.edition lacks line sections.now)) }
{
    if named.is_some() {
        return Ok(named);
    }
    let setup = setup_fault(header, lacks, line);
    if setup.is_some() {
        return Ok(setup);
    }
    first_fault(alloc, header.edition, sections)
}

/// A file with this header: the fields before its sections, and the rest.
fn file(
    alloc: Global,
    told: List<Change>,
    header: Header,
    heads: &[Element],
    rest: &[Element],
) -> Result<Modern, Fault>
    ensures modern { IfOk result (λ modern. file told header heads.now rest.now ≡ Ok modern) }
    ensures fault { IfErr result (RefusesAt (λ line cause. file told header heads.now rest.now ≡ Err (line, cause))) }
{
    let names = names_of(alloc, rest)?;
    let named = name_fault(&names, rest);
    let lacks = lacks_setup(alloc, header.edition, heads, rest)?;
    let mut more = List::new(alloc);
    let made = sections(alloc, header.edition, &names, heads, rest, &mut more)?;
    let line = type_line(header, heads);
    match fault(alloc, header, named, lacks, line, made.as_slice())? {
        Some(at) => Err(Fault::At {
            line: at.line,
            cause: at.cause,
        }),
        None => Ok(joined(alloc, header, heads, lacks, made, told, more)?),
    }
}

fn of_items(alloc: Global, told: List<Change>, items: &[Element]) -> Result<Modern, Fault>
    ensures modern { IfOk result (λ modern. IsFile told items.now (Ok modern)) }
    ensures fault { IfErr result (RefusesAt (λ line cause. IsFile told items.now (Err (line, cause)))) }
{
    let header = header_of(alloc, items)?;
    let (heads, rest) = items.split_at(leading(items));
    file(alloc, told, header, heads, rest)
}

fn sectioned_told(alloc: Global, items: &[Element]) -> Result<List<Change>, NoMemory>
    ensures { IfOk result (λ told. told ≡ sectioned_told items.now) }
{
    let mut told = List::new(alloc);
    if all_fields(items) && any_moves(items) {
        told.push(Change::Sections)?;
    }
    Ok(told)
}

/// The elements of a file, of any cabal-version that Cabal reads, under a cabal-version that is read here.
pub fn modern_elements(alloc: Global, items: &List<Element>) -> Result<Modern, Fault>
    ensures modern { IfOk result (λ modern. IsModern items.now (Ok modern)) }
    ensures fault { IfErr result (RefusesAt (λ line cause. IsModern items.now (Err (line, cause)))) }
{
    let told = sectioned_told(alloc, items.as_slice())?;
    if all_fields(items.as_slice()) {
        if is_too_large(alloc, items.as_slice())? {
            return Err(Fault::At {
                line: 0,
                cause: Cause::TooLarge,
            });
        }
        let made = flat(alloc, items.as_slice())?;
        return of_items(alloc, told, made.as_slice());
    }
    of_items(alloc, told, items.as_slice())
}
