// The description of a package, read from the elements of its file.

ghost use Rattle.std.specs.Prelude.{◌≡◌, ◌++◌, ◌*◌, ℕ, List, Option, flat_map, map, IfOk, IfErr, OnOk};
ghost use Rattle.std.specs.Option.{option_or};
ghost use Rattle.std.specs.List.{All};
ghost use Rattle.std.specs.declared.result.Result.TheVariants.{Ok, Err};
ghost use Rattle.plan_types.specs.Refusal.{RefusesAt};
ghost use Rattle.cabal_lexer.specs.Tree.{Tree, in_front, tree_of};
ghost use Rattle.section_syntax.specs.declared.part.File.{File};
ghost use Rattle.section_syntax.specs.Chained.{AreSectionParts};
ghost use Rattle.section_syntax.specs.declared.part.Section.{Section};
ghost use Rattle.package_declarations.specs.Declarations.{own_name};
ghost use Rattle.package_declarations.specs.Components.{components as components_of};
ghost use Rattle.description.specs.Description.{IsFaultlessOutcome, IsFileOutcome, Describes, IsDescriptionOf, cabal_version, line_of, version_of, version_said, spec_of, warning, warnings};
ghost use Rattle.description.specs.Faults.{bad_visibility_at, faults};
ghost use Rattle.stanza_imports.specs.Imports.{with_imports_replaced};
ghost use Rattle.stanza_imports.specs.Parts.{bad_visibilities};
ghost use Rattle.description.specs.FaultOrder.{IsOnly, first, is_at};
ghost use Rattle.common_laws.specs.Small.{capped};
ghost use Rattle.stanza_imports.specs.Bodies.{AreBodiesOf};
ghost use Rattle.package_declarations.specs.DeclaredNames.{RepresentsNames};
ghost use Rattle.description.specs.ShownVersion.{shown_version};

use crate::fault_order::{At, earlier};
use crate::faults::first_fault;
use crate::laws::one_outcome;
use package_declarations::{Declared, components, first_circular, flags, is_custom, setup_deps};
use plan_types::{
    Cause, Component, Description, Element, Fault, List, NoMemory, Spec, Text, Version, joined_text,
};
use section_syntax::{File, Head, HeadField, Said, Section, SectionPart, read_file};
use stanza_imports::{Bodies, bodies_of, first_bad_visibility, total_weight};
use std::alloc::Global;

/// The description of a file's elements, or their first fault. The digest is passed through.
///
/// The cabal-version decides how the rest is read. Next comes the fault of the least line, then a missing name or
/// version at line 0, then a cycle of components.
pub fn read_description(
    alloc: Global,
    items: &List<Element>,
    digest: Text,
) -> Result<Description, Fault>
    ensures description { IfOk result (λ d. Describes items.now digest (Ok d)) }
    ensures fault { IfErr result (RefusesAt (λ line cause. Describes items.now digest (Err (is_at line cause)))) }
    ensures only { IsOnly (Describes items.now digest) result }
{
    one_outcome();
    described_items(alloc, items, digest)
}

fn described_items(alloc: Global, items: &List<Element>, digest: Text) -> Result<Description, Fault>
    ensures description { IfOk result (λ d. Describes items.now digest (Ok d)) }
    ensures fault { IfErr result (RefusesAt (λ line cause. Describes items.now digest (Err (is_at line cause)))) }
{
    let spec = cabal_version(alloc, items.as_slice())?;
    let file = read_file(alloc, spec, items.as_slice())?;
    let described = described(alloc, &file, digest)?;
    Ok(described)
}

fn missing() -> Fault
    ensures { result ≡ Fault.At 0 Cause.MissingField }
{
    Fault::At {
        line: 0,
        cause: Cause::MissingField,
    }
}

/// The cabal-version in the first element.
fn cabal_version(alloc: Global, items: &[Element]) -> Result<Spec, Fault>
    ensures spec { IfOk result (λ spec. cabal_version (tree_of items.now) ≡ Ok spec) }
    ensures fault { IfErr result (RefusesAt
        (λ line cause. cabal_version (tree_of items.now) ≡ Err (is_at line cause))) }
{
    match items {
        [] => Err(missing()),
        [first, ..] => stated(alloc, first),
    }
}

fn stated(alloc: Global, first: &Element) -> Result<Spec, Fault>
    ensures spec { IfOk result (λ spec. (behind : Tree) → cabal_version (in_front first.now behind) ≡ Ok spec) }
    ensures fault { IfErr result (RefusesAt (λ line cause. (behind : Tree)
        → cabal_version (in_front first.now behind) ≡ Err (is_at line cause))) }
{
    match first {
        Element::Field { line, name, values } => {
            if name.as_str() == "cabal-version" {
                let text = joined_text(alloc, values.as_slice())?;
                spec_of(*line, text.as_str())
            } else {
                Err(missing())
            }
        }
        Element::Section {
            line: _,
            name: _,
            args: _,
            items: _,
        } => Err(missing()),
    }
}

fn spec_of(line: u32, text: &str) -> Result<Spec, Fault>
    ensures spec { IfOk result (λ spec. spec_of line text.now ≡ Ok spec) }
    ensures fault { IfErr result (λ fault. (fault ≡ Fault.At line Cause.WrongCabalVersion)
        × (spec_of line text.now ≡ Err (is_at line Cause.WrongCabalVersion))) }
{
    match text {
        "2.4" => Ok(Spec::V2_4),
        "3.0" => Ok(Spec::V3_0),
        "3.4" => Ok(Spec::V3_4),
        _ => Err(Fault::At {
            line,
            cause: Cause::WrongCabalVersion,
        }),
    }
}

fn described(alloc: Global, file: &File, digest: Text) -> Result<Description, Fault>
    requires { All (λ section. AreSectionParts section.parts) file.now.sections }
    ensures description { IfOk result (λ d. IsFileOutcome file.now digest (first (faults file.now)) (Ok d)) }
    ensures fault { IfErr result (RefusesAt
        (λ line cause. IsFileOutcome file.now digest (first (faults file.now)) (Err (is_at line cause)))) }
{
    let declared = Declared::of(alloc, file)?;
    let bodies = bodies_of(alloc, file.sections.as_slice())?;
    judged(alloc, file, digest, &declared, &bodies)
}

/// The outcome of a file, by the tables of its declarations and imports.
fn judged(
    alloc: Global,
    file: &File,
    digest: Text,
    declared: &Declared,
    bodies: &Bodies,
) -> Result<Description, Fault>
    requires { All (λ section. AreSectionParts section.parts) file.now.sections }
    ensures description { IfOk result (λ d. RepresentsNames declared.now file.now
        → AreBodiesOf file.now.sections bodies.now
        → IsFileOutcome file.now digest (first (faults file.now)) (Ok d)) }
    ensures fault { IfErr result (RefusesAt
        (λ line cause. RepresentsNames declared.now file.now → AreBodiesOf file.now.sections bodies.now
        → IsFileOutcome file.now digest (first (faults file.now)) (Err (is_at line cause)))) }
{
    let first = first_of_file(alloc, file, declared, bodies)?;
    match first {
        Some(at) => Err(at.fault()),
        None => faultless(alloc, file, digest, declared, bodies),
    }
}

/// The first fault of a file, including bad visibilities.
fn first_of_file(
    alloc: Global,
    file: &File,
    declared: &Declared,
    bodies: &Bodies,
) -> Result<Option<At>, NoMemory>
    ensures { IfOk result (λ found. RepresentsNames declared.now file.now → AreBodiesOf file.now.sections bodies.now
        → found ≡ first (faults file.now)) }
{
    let written = first_fault(alloc, file, declared)?;
    Ok(earlier(written, bad_visibility(bodies)))
}

/// The fault of the first bad visibility.
fn bad_visibility(bodies: &Bodies) -> Option<At>
    ensures { (sections : List Section) → AreBodiesOf sections bodies.now
        → result ≡ first (map bad_visibility_at (flat_map bad_visibilities (with_imports_replaced sections))) }
{
    match first_bad_visibility(bodies) {
        Some(line) => Some(At {
            line,
            cause: Cause::BadField,
        }),
        None => None,
    }
}

/// The outcome of a file without faults of its own.
fn faultless(
    alloc: Global,
    file: &File,
    digest: Text,
    declared: &Declared,
    bodies: &Bodies,
) -> Result<Description, Fault>
    requires { All (λ section. AreSectionParts section.parts) file.now.sections }
    ensures description { IfOk result (λ d. RepresentsNames declared.now file.now
        → AreBodiesOf file.now.sections bodies.now
        → IsFaultlessOutcome file.now digest (own_name file.now.heads) (version_of file.now.heads) (Ok d)) }
    ensures fault { IfErr result (RefusesAt
        (λ line cause. RepresentsNames declared.now file.now → AreBodiesOf file.now.sections bodies.now
        → IsFaultlessOutcome file.now digest (own_name file.now.heads) (version_of file.now.heads)
        (Err (is_at line cause)))) }
{
    let Some(name) = declared.name else {
        return Err(missing());
    };
    let Some(version) = version_of(file.heads.as_slice()) else {
        return Err(missing());
    };
    room(alloc, total_weight(bodies))?;
    let components = components(alloc, declared, bodies)?;
    let described = whole(alloc, file, digest, name, version, components)?;
    match first_circular(alloc, described.components.as_slice())? {
        Some(number) => Err(circular(described.components.as_slice(), number)),
        None => Ok(described),
    }
}

/// Reserves about the memory that so many parts and dependencies take, and frees it. Imports can describe more than
/// memory has room for. Then out of memory is reported before that memory is filled.
fn room(alloc: Global, weight: u64) -> Result<(), NoMemory> {
    let _room: Vec<u64> = Vec::with_capacity(alloc, words_for(weight))?;
    Ok(())
}

/// About 64 words of memory for each part and dependency.
fn words_for(weight: u64) -> usize
    ensures { result ≡ capped (weight * 64) }
{
    weight.saturating_mul(64) as usize
}

fn whole(
    alloc: Global,
    file: &File,
    digest: Text,
    name: &Text,
    version: &Version,
    components: List<Component>,
) -> Result<Description, NoMemory>
    ensures { IfOk result (λ d. components ≡ components_of file.now
        → IsDescriptionOf file.now digest name.now version.now d) }
{
    let name = name.copy()?;
    let version = version.copy(alloc)?;
    let flags = flags(alloc, file.sections.as_slice())?;
    let setup = setup_deps(alloc, file)?;
    let warnings = warnings(alloc, file.sections.as_slice())?;
    Ok(Description {
        spec: file.spec,
        name,
        version,
        custom: is_custom(file),
        flags,
        components,
        setup,
        digest,
        warnings,
    })
}

/// The fault of a component on a cycle.
fn circular(components: &[Component], number: usize) -> Fault
    ensures { result ≡ Fault.At (line_of components.now number) Cause.ComponentCycle }
{
    let line = match components.get(number) {
        Some(component) => component.line,
        None => 0,
    };
    Fault::At {
        line,
        cause: Cause::ComponentCycle,
    }
}

/// The last well-formed version.
fn version_of(heads: &[HeadField]) -> Option<&Version>
    ensures { shown_version result ≡ version_of heads.now }
{
    let mut version = None;
    for field in heads {
        version = later(version, version_said(&field.head));
    }
    version
}

fn version_said(head: &Head) -> Option<&Version>
    ensures { shown_version result ≡ version_said head.now }
{
    match head {
        Head::Version(Some(version)) => Some(version),
        _ => None,
    }
}

fn later<'a>(before: Option<&'a Version>, said: Option<&'a Version>) -> Option<&'a Version>
    ensures { shown_version result ≡ option_or (shown_version said.entry) (shown_version before.entry) }
{
    match said {
        Some(version) => Some(version),
        None => before,
    }
}

/// The line of each `build-tools`.
fn warnings(alloc: Global, sections: &[Section]) -> Result<List<u32>, NoMemory>
    ensures { IfOk result (λ lines. lines ≡ warnings sections.now) }
{
    let mut lines = List::new(alloc);
    for section in sections {
        push_warnings(section.parts.as_slice(), &mut lines)?;
    }
    Ok(lines)
}

fn push_warnings(parts: &[SectionPart], lines: &mut List<u32>) -> Result<(), NoMemory>
    ensures { OnOk result (lines.new ≡ lines.old ++ flat_map warning parts.now) }
{
    for part in parts {
        push_warning(part, lines)?;
    }
    Ok(())
}

fn push_warning(part: &SectionPart, lines: &mut List<u32>) -> Result<(), NoMemory>
    ensures { OnOk result (lines.new ≡ lines.old ++ warning part.now) }
{
    match part.said {
        Said::BuildTools => lines.push(part.line),
        _ => Ok(()),
    }
}
