// The faults of a file, except bad visibilities.

ghost use Rattle.std.specs.Prelude.{◌≡◌, ◌&&◌, ℕ, true, not, List, [], flat_map, Option, IfOk, OnOk};
ghost use Rattle.std.specs.List.{list_all};
ghost use Rattle.section_syntax.specs.declared.part.File.{File};
ghost use Rattle.section_syntax.specs.declared.part.Section.{Section};
ghost use Rattle.section_syntax.specs.declared.words.BranchWord.{BranchWord};
ghost use Rattle.package_declarations.specs.Declarations.{is_known, is_library, own_name};
ghost use Rattle.description.specs.Faults.{at, class_of, file_faults, has_good_name, in_head, in_part, in_section, is_class, of_condition, of_name, of_said, repeated, unknown_stanzas, unless};
ghost use Rattle.description.specs.NamesBefore.{again, names_behind, unknown_of};
ghost use Rattle.description.specs.FaultOrder.{first};
ghost use Rattle.stanza_imports.specs.Names.{has};
ghost use Rattle.package_declarations.specs.DeclaredNames.{RepresentsNames};

use crate::fault_order::{At, earlier};
use package_declarations::Declared;
use plan_types::{
    Cause, CompKind, Dep, Guard, List, NoMemory, Text, is_component_name, is_flag_name,
};
use section_syntax::{File, Head, HeadField, Said, Section, SectionKind, SectionPart};
use stanza_imports::NameSet;
use std::alloc::Global;

/// The first fault of a file, except bad visibilities.
pub fn first_fault(alloc: Global, file: &File, declared: &Declared) -> Result<Option<At>, NoMemory>
    ensures { IfOk result (λ found. RepresentsNames declared.now file.now → found ≡ first (file_faults file.now)) }
{
    let sections = file.sections.as_slice();
    let found = in_heads(file.heads.as_slice());
    let found = earlier(found, in_sections(sections, declared));
    let found = earlier(found, first_repeated(alloc, Class::Component, sections)?);
    let found = earlier(found, first_repeated(alloc, Class::Common, sections)?);
    let found = earlier(found, first_repeated(alloc, Class::Flag, sections)?);
    let found = earlier(found, first_repeated(alloc, Class::Setup, sections)?);
    let found = earlier(found, first_unknown_stanza(alloc, sections)?);
    Ok(found)
}

/// The cause at this line, if the test fails.
fn unless(line: u32, holds: bool, cause: Cause) -> Option<At>
    ensures { result ≡ first (at line (unless holds cause)) }
{
    if holds {
        None
    } else {
        Some(At { line, cause })
    }
}

fn in_heads(heads: &[HeadField]) -> Option<At>
    ensures { result ≡ first (flat_map in_head heads.now) }
{
    let mut found = None;
    for field in heads {
        found = earlier(found, in_head(field));
    }
    found
}

fn in_head(field: &HeadField) -> Option<At>
    ensures { result ≡ first (in_head field.now) }
{
    let line = field.line;
    match &field.head {
        Head::Name(name) => unless(line, name.is_some(), Cause::BadName),
        Head::Version(version) => unless(line, version.is_some(), Cause::BadVersion),
        Head::BuildType(custom) => unless(line, custom.is_some(), Cause::BadField),
    }
}

fn in_sections(sections: &[Section], declared: &Declared) -> Option<At>
    ensures { (file : File) → RepresentsNames declared.now file
        → result ≡ first (flat_map (in_section file) sections.now) }
{
    let mut found = None;
    for section in sections {
        found = earlier(found, in_section(section, declared));
    }
    found
}

fn in_section(section: &Section, declared: &Declared) -> Option<At>
    ensures { (file : File) → RepresentsNames declared.now file
        → result ≡ first (in_section file section.now) }
{
    let named = of_name(section, declared);
    let inside = in_parts(section.parts.as_slice(), declared);
    earlier(named, inside)
}

fn of_name(section: &Section, declared: &Declared) -> Option<At>
    ensures { (file : File) → RepresentsNames declared.now file
        → result ≡ first (at section.now.line (of_name (own_name file.heads) section.now)) }
{
    let good = has_good_name(section.kind, section.name.as_bytes());
    let own = declared.is_own(&section.name);
    let library = is_library(section.kind);
    let form = unless(section.line, good, Cause::BadName);
    let apart = unless(section.line, !both(library, own), Cause::DuplicateName);
    earlier(form, apart)
}

fn is_library(kind: SectionKind) -> bool
    ensures { result ≡ is_library kind }
{
    kind == SectionKind::Component(CompKind::Library)
}

fn both(one: bool, other: bool) -> bool
    ensures { result ≡ (one && other) }
{
    one && other
}

fn has_good_name(kind: SectionKind, name: &[u8]) -> bool
    ensures { result ≡ has_good_name kind name.now }
{
    match kind {
        SectionKind::Component(kind) => match kind {
            CompKind::Library => name.is_empty() || is_component_name(name),
            CompKind::Executable => is_component_name(name),
            CompKind::Test => is_component_name(name),
            CompKind::Bench => is_component_name(name),
            CompKind::Foreign => is_component_name(name),
        },
        SectionKind::Common => !name.is_empty(),
        SectionKind::Flag => is_flag_name(name),
        SectionKind::Setup => true,
    }
}

fn in_parts(parts: &[SectionPart], declared: &Declared) -> Option<At>
    ensures { (file : File) → RepresentsNames declared.now file → result ≡ first (flat_map (in_part file) parts.now) }
{
    let mut found = None;
    for part in parts {
        found = earlier(found, in_part(part, declared));
    }
    found
}

fn in_part(part: &SectionPart, declared: &Declared) -> Option<At>
    ensures { (file : File) → RepresentsNames declared.now file → result ≡ first (in_part file part.now) }
{
    let line = part.line;
    match &part.said {
        Said::Import { names: _, fits } => unless(line, *fits, Cause::ImportNotFirst),
        Said::Depends(deps) => of_deps(line, deps, declared),
        Said::Buildable(value) => unless(line, value.is_some(), Cause::BadField),
        Said::Visibility(_) => None,
        Said::Default(value) => unless(line, value.is_some(), Cause::BadField),
        Said::Manual(value) => unless(line, value.is_some(), Cause::BadField),
        Said::BuildTools => None,
        Said::Branch {
            word: _,
            condition,
            fits,
        } => of_branch(line, condition, *fits, declared),
        Said::Misplaced => unless(line, false, Cause::BadField),
    }
}

fn of_deps(line: u32, deps: &Result<List<Dep>, Cause>, declared: &Declared) -> Option<At>
    ensures { (file : File) → RepresentsNames declared.now file
        → result ≡ first (at line (of_said file (Said.Depends deps.now))) }
{
    match deps {
        Ok(deps) => unless(
            line,
            are_known(deps.as_slice(), declared),
            Cause::UnknownComponent,
        ),
        Err(cause) => unless(line, false, *cause),
    }
}

fn are_known(deps: &[Dep], declared: &Declared) -> bool
    ensures { (file : File) → RepresentsNames declared.now file → result ≡ list_all (is_known file) deps.now }
{
    for dep in deps {
        if !declared.is_known(dep) {
            return false;
        }
    }
    true
}

fn of_branch(
    line: u32,
    condition: &Result<Guard, Cause>,
    fits: bool,
    declared: &Declared,
) -> Option<At>
    ensures { (file : File) (word : BranchWord) → RepresentsNames declared.now file
        → result ≡ first (at line (of_said file (Said.Branch word condition.now fits))) }
{
    let condition = of_condition(line, condition, declared);
    let place = unless(line, fits, Cause::ElseWithoutIf);
    earlier(condition, place)
}

fn of_condition(line: u32, condition: &Result<Guard, Cause>, declared: &Declared) -> Option<At>
    ensures { (file : File) → RepresentsNames declared.now file
        → result ≡ first (at line (of_condition file.sections condition.now)) }
{
    match condition {
        Ok(cond) => unless(line, declared.has_flags(cond.get()), Cause::UnknownFlag),
        Err(cause) => unless(line, false, *cause),
    }
}

/// Sections whose names must differ from each other.
#[derive(Clone, Copy, Debug, PartialEq, Eq)]
pub enum Class {
    Component,
    Common,
    Flag,
    Setup,
}

fn class_of(kind: SectionKind) -> Class
    ensures { result ≡ class_of kind }
{
    match kind {
        SectionKind::Component(_) => Class::Component,
        SectionKind::Common => Class::Common,
        SectionKind::Flag => Class::Flag,
        SectionKind::Setup => Class::Setup,
    }
}

fn is_class(class: Class, kind: SectionKind) -> bool
    ensures { result ≡ is_class class kind }
{
    class_of(kind) == class
}

fn first_repeated(alloc: Global, class: Class, sections: &[Section]) -> Result<Option<At>, NoMemory>
    ensures { IfOk result (λ found. found ≡ first (repeated class sections.now)) }
{
    let mut before = NameSet::new(alloc);
    let mut found = None;
    for section in sections {
        found = earlier(found, again(class, &mut before, section)?);
    }
    Ok(found)
}

/// The fault of a section of the class that repeats an earlier name.
fn again<'a>(
    class: Class,
    before: &mut NameSet<'a>,
    section: &'a Section,
) -> Result<Option<At>, NoMemory>
    ensures found { IfOk result (λ found. found ≡ first (again class before.old section.now)) }
    ensures names { OnOk result (before.new ≡ names_behind class before.old section.now) }
{
    if is_class(class, section.kind) {
        let new = before.insert(section.name.as_str())?;
        Ok(unless(section.line, new, Cause::DuplicateName))
    } else {
        Ok(None)
    }
}

fn first_unknown_stanza(alloc: Global, sections: &[Section]) -> Result<Option<At>, NoMemory>
    ensures { IfOk result (λ found. found ≡ first (unknown_stanzas sections.now)) }
{
    let mut known = NameSet::new(alloc);
    let mut found = None;
    for section in sections {
        found = earlier(found, unknown_in(section.parts.as_slice(), &known));
        know(&mut known, section)?;
    }
    Ok(found)
}

fn know<'a>(known: &mut NameSet<'a>, section: &'a Section) -> Result<(), NoMemory>
    ensures { OnOk result (known.new ≡ names_behind Class.Common known.old section.now) }
{
    if is_class(Class::Common, section.kind) {
        known.insert(section.name.as_str())?;
    }
    Ok(())
}

fn unknown_in(parts: &[SectionPart], known: &NameSet) -> Option<At>
    ensures { result ≡ first (flat_map (λ part. at part.line (unknown_of known.now part.said)) parts.now) }
{
    let mut found = None;
    for part in parts {
        found = earlier(found, unknown(part, known));
    }
    found
}

fn unknown(part: &SectionPart, known: &NameSet) -> Option<At>
    ensures { result ≡ first (at part.now.line (unknown_of known.now part.now.said)) }
{
    match &part.said {
        Said::Import { names, fits } => {
            let all = are_there(names.as_slice(), known);
            if *fits {
                unless(part.line, all, Cause::UnknownStanza)
            } else {
                None
            }
        }
        Said::Depends(_) => None,
        Said::Buildable(_) => None,
        Said::Visibility(_) => None,
        Said::Default(_) => None,
        Said::Manual(_) => None,
        Said::BuildTools => None,
        Said::Branch {
            word: _,
            condition: _,
            fits: _,
        } => None,
        Said::Misplaced => None,
    }
}

fn are_there(names: &[Text], known: &NameSet) -> bool
    ensures { result ≡ list_all (has known.now) names.now }
{
    for name in names {
        if !known.has(name.as_str()) {
            return false;
        }
    }
    true
}
