// The sections of a file.

ghost use Rattle.std.specs.Prelude.{◌≡◌, ◌++◌, ◌∷◌, [], false, flat_map, fold, IfOk, OnOk};
ghost use Rattle.std.specs.List.{list_any};
ghost use Rattle.plan_types.specs.declared.element.Element.TheVariants.{Section};
ghost use Rattle.cabal_lexer.specs.Tree.{tree_of};
ghost use Rattle.older_rules.specs.Bodies.{kept, told};
ghost use Rattle.older_fields.specs.NameMaps.{firsts, with_first};
ghost use Rattle.older_rules.specs.Tops.{is_component, component_name, is_unnamed, name_fault, tool_named, executable_tool, is_setup, top_rule, name_told, top_kept, top_told, tops, tops_told, KeepsTop, TellsTop};
ghost use Rattle.older_fields.specs.Names.{new_name};

use crate::body::{Inside, push_section, rewritten};
use crate::change::Change;
use indexmap::IndexMap;
use older_fields::{At, Edition, NameMap, is_odd, lacks_name, line_of, new_name, put_first};
use plan_types::{Cause, Element, List, NoMemory, Text};
use std::alloc::Global;

/// What stays the same for all sections of a file.
#[derive(Clone, Copy)]
pub struct Rewriting<'a> {
    pub edition: Edition,
    pub tools: &'a NameMap,
    pub names: &'a NameMap,
}

/// What becomes of a section.
#[derive(Clone, Copy, Debug, PartialEq, Eq)]
pub enum TopRule {
    Dropped,
    Component,
    Common,
    /// Kept as it is.
    Other,
}

fn is_component(name: &str) -> bool
    ensures { result ≡ is_component name.now }
{
    match name {
        "library" => true,
        "executable" => true,
        "test-suite" => true,
        "benchmark" => true,
        "foreign-library" => true,
        _ => false,
    }
}

fn top_rule(edition: Edition, name: &str) -> TopRule
    ensures { result ≡ top_rule edition name.now }
{
    if is_component(name) {
        return TopRule::Component;
    }
    if name != "common" {
        return TopRule::Other;
    }
    if edition.is_before(Edition::V2_2) {
        TopRule::Dropped
    } else {
        TopRule::Common
    }
}

fn push_component_name(item: &Element, names: &mut List<Text>) -> Result<(), NoMemory>
    ensures { OnOk result (names.new ≡ names.old ++ component_name item.now) }
{
    match item {
        Element::Field { .. } => Ok(()),
        Element::Section { name, args, .. } => {
            if is_component(name.as_str()) {
                names.push(args.copy()?)
            } else {
                Ok(())
            }
        }
    }
}

/// The names of all components.
pub fn component_names(alloc: Global, items: &[Element]) -> Result<List<Text>, NoMemory>
    ensures { IfOk result (λ names. names ≡ flat_map component_name items.now) }
{
    let mut names = List::new(alloc);
    for item in items {
        push_component_name(item, &mut names)?;
    }
    Ok(names)
}

fn is_unnamed(names: &NameMap, item: &Element) -> bool
    ensures { result ≡ is_unnamed names.now.entries item.now }
{
    match item {
        Element::Field { .. } => false,
        Element::Section { name, args, .. } => {
            is_component(name.as_str()) && lacks_name(names, args)
        }
    }
}

/// The first component that needs a new name and has none.
pub fn name_fault(names: &NameMap, items: &[Element]) -> Option<At>
    ensures { result ≡ name_fault names.now.entries items.now }
{
    match items.iter().find(|item| is_unnamed(names, item)) {
        None => None,
        Some(item) => Some(At {
            line: line_of(item),
            cause: Cause::DuplicateName,
        }),
    }
}

fn tool_named(owner: &Text, names: &NameMap, args: &Text) -> Result<Text, NoMemory>
    ensures { IfOk result (λ full. full ≡ tool_named owner.now names.now.entries args.now) }
{
    let new = new_name(names, args)?;
    let mut full = owner.copy()?;
    full.push_str(":")?;
    full.push_str(new.as_str())?;
    Ok(full)
}

fn put_tool(
    owner: &Text,
    names: &NameMap,
    item: &Element,
    tools: &mut NameMap,
) -> Result<(), NoMemory>
    ensures { OnOk result (tools.new.entries
        ≡ fold with_first tools.old.entries (executable_tool owner.now names.now.entries item.now)) }
{
    match item {
        Element::Field { .. } => Ok(()),
        Element::Section { name, args, .. } => {
            if name.as_str() == "executable" {
                let full = tool_named(owner, names, args)?;
                let name = args.copy()?;
                put_first(tools, name, full)
            } else {
                Ok(())
            }
        }
    }
}

/// The package's own executables.
pub fn own_tools(
    alloc: Global,
    owner: &Text,
    names: &NameMap,
    items: &[Element],
) -> Result<NameMap, NoMemory>
    ensures { IfOk result (λ tools. tools.entries
        ≡ firsts (flat_map (executable_tool owner.now names.now.entries) items.now)) }
{
    let mut tools = IndexMap::new(alloc);
    for item in items {
        put_tool(owner, names, item, &mut tools)?;
    }
    Ok(tools)
}

fn is_setup(item: &Element) -> bool
    ensures { result ≡ is_setup item.now }
{
    match item {
        Element::Field { .. } => false,
        Element::Section { name, .. } => name.as_str() == "custom-setup",
    }
}

pub fn has_setup(items: &[Element]) -> bool
    ensures { result ≡ list_any is_setup items.now }
{
    items.iter().any(|item| is_setup(item))
}

fn tell_name(line: u32, args: &Text, changes: &mut List<Change>) -> Result<(), NoMemory>
    ensures { OnOk result (changes.new ≡ changes.old ++ name_told line args.now) }
{
    if is_odd(args.as_bytes()) {
        changes.push(Change::Name { line })
    } else {
        Ok(())
    }
}

fn push_kept(
    alloc: Global,
    inside: &Inside<'_>,
    line: u32,
    name: &Text,
    args: &Text,
    items: &[Element],
    out: &mut List<Element>,
    changes: &mut List<Change>,
) -> Result<(), NoMemory>
    ensures items { OnOk result (out.new ≡ out.old ++ Section line name.now args.now
        (kept inside.now.edition inside.now.tools.now.entries false (tree_of items.now)) ∷ []) }
    ensures changes { OnOk result (changes.new ≡ changes.old
        ++ told inside.now.edition inside.now.tools.now.entries false (tree_of items.now)) }
{
    let inner = rewritten(alloc, inside, items, changes)?;
    push_section(line, name, args, inner, out)
}

fn push_component(
    alloc: Global,
    names: &NameMap,
    inside: &Inside<'_>,
    line: u32,
    name: &Text,
    args: &Text,
    items: &[Element],
    out: &mut List<Element>,
    changes: &mut List<Change>,
) -> Result<(), NoMemory>
    ensures items { OnOk result (out.new ≡ out.old ++ Section line name.now (new_name names.now.entries args.now)
        (kept inside.now.edition inside.now.tools.now.entries false (tree_of items.now)) ∷ []) }
    ensures changes { OnOk result (changes.new ≡ changes.old ++ (name_told line args.now
        ++ told inside.now.edition inside.now.tools.now.entries false (tree_of items.now))) }
{
    tell_name(line, args, changes)?;
    let new = new_name(names, args)?;
    push_kept(alloc, inside, line, name, &new, items, out, changes)
}

fn push_top_section(
    alloc: Global,
    rewriting: &Rewriting<'_>,
    rule: TopRule,
    line: u32,
    name: &Text,
    args: &Text,
    items: &[Element],
    out: &mut List<Element>,
    changes: &mut List<Change>,
) -> Result<(), NoMemory>
    ensures items { OnOk result (out.new ≡ out.old ++ top_kept rewriting.now.edition rewriting.now.tools.now.entries
        rewriting.now.names.now.entries rule line name.now args.now (tree_of items.now)) }
    ensures changes { OnOk result (changes.new ≡ changes.old ++ top_told rewriting.now.edition
        rewriting.now.tools.now.entries rule line args.now (tree_of items.now)) }
{
    match rule {
        TopRule::Dropped => changes.push(Change::Dropped { line }),
        TopRule::Component => {
            let inside = rewriting.inside(rewriting.edition);
            push_component(
                alloc,
                rewriting.names,
                &inside,
                line,
                name,
                args,
                items,
                out,
                changes,
            )
        }
        TopRule::Common => {
            let inside = rewriting.inside(rewriting.edition);
            push_kept(alloc, &inside, line, name, args, items, out, changes)
        }
        TopRule::Other => {
            let inside = rewriting.inside(Edition::V3_4);
            push_kept(alloc, &inside, line, name, args, items, out, changes)
        }
    }
}

impl<'a> Rewriting<'a> {
    fn inside(&self, edition: Edition) -> Inside<'a>
        ensures edition { result.edition ≡ edition }
        ensures tools { result.tools.now.entries ≡ self.now.tools.now.entries }
    {
        Inside {
            edition,
            tools: self.tools,
        }
    }
}

fn push_top(
    alloc: Global,
    rewriting: &Rewriting<'_>,
    item: &Element,
    out: &mut List<Element>,
    changes: &mut List<Change>,
) -> Result<(), NoMemory>
    ensures items { OnOk result (KeepsTop rewriting.now.edition rewriting.now.tools.now.entries rewriting.now.names.now.entries
        item.now out.old out.new) }
    ensures changes { OnOk result (TellsTop rewriting.now.edition rewriting.now.tools.now.entries item.now changes.old changes.new) }
{
    match item {
        Element::Field { line, .. } => changes.push(Change::Dropped { line: *line }),
        Element::Section {
            line,
            name,
            args,
            items,
        } => {
            let rule = top_rule(rewriting.edition, name.as_str());
            push_top_section(
                alloc,
                rewriting,
                rule,
                *line,
                name,
                args,
                items.as_slice(),
                out,
                changes,
            )
        }
    }
}

/// The sections of a file, rewritten. Fields among them are left out.
pub fn push_tops(
    alloc: Global,
    rewriting: &Rewriting<'_>,
    items: &[Element],
    out: &mut List<Element>,
    changes: &mut List<Change>,
) -> Result<(), NoMemory>
    ensures items { OnOk result (out.new ≡ out.old ++ tops rewriting.now.edition rewriting.now.tools.now.entries
        rewriting.now.names.now.entries (tree_of items.now)) }
    ensures changes { OnOk result (changes.new ≡ changes.old ++ tops_told rewriting.now.edition
        rewriting.now.tools.now.entries (tree_of items.now)) }
{
    for item in items {
        push_top(alloc, rewriting, item, out, changes)?;
    }
    Ok(())
}
