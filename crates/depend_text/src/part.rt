// The libraries or the executable between a package's name and its range.
ghost use Rattle.std.specs.Prelude.{◌≡◌, ◌∷◌, [], ℕ, List, IfOk, IfErr, true, false};
ghost use Rattle.plan_types.specs.Refusal.{Refuses};
ghost use Rattle.plan_types.specs.Name.{is_component_byte, is_component_name};
ghost use Rattle.plan_types.specs.declared.dependency.LibName.{LibName};
ghost use Rattle.plan_types.specs.declared.refusal.Cause.TheVariants.{BadDepend};
ghost use Rattle.entry_text.specs.Entries.{Pieces, Each};
ghost use Rattle.entry_text.specs.Words.{run, behind, is_in_braces};
ghost use Rattle.depend_text.specs.Depends.{Library, library, NamedLibraries, Libraries, LibrariesFault, old_cause, begins_library, Executable};

use entry_text::{
    EntryKind, are_blanks, braces_run, component_run, component_text, is_component_byte, pieces,
    read_each, unblank,
};
use plan_types::{Cause, LibName, List, NoMemory, Spec, Text, TextFault, is_component_name};
use std::alloc::Global;
use text_grammar::byte_after;

/// The libraries named after a package, and the text of the range.
pub fn libraries<'a>(
    alloc: Global,
    spec: Spec,
    package: &[u8],
    text: &'a [u8],
) -> Result<(List<LibName>, &'a [u8]), TextFault>
    ensures found { IfOk result (λ p. Libraries spec «package».now text.now p.0 p.1.now) }
    ensures fault { IfErr result (Refuses (LibrariesFault spec «package».now text.now)) }
{
    let Some(part) = byte_after(text, b':') else {
        let libs = single(alloc, LibName::Main)?;
        return Ok((libs, text));
    };
    if spec.is_old() {
        return Err(TextFault::Bad(old_cause(part)));
    }
    named_libraries(alloc, package, part)
}

// The cause for named libraries before 3.0.
fn old_cause(part: &[u8]) -> Cause
    ensures { result ≡ old_cause part.now }
{
    if begins_library(part) {
        Cause::NeedsVersion
    } else {
        Cause::BadDepend
    }
}

fn begins_library(part: &[u8]) -> bool
    ensures { result ≡ begins_library part.now }
{
    match part {
        [] => false,
        [first, ..] => *first == b'{' || is_component_byte(*first),
    }
}

fn named_libraries<'a>(
    alloc: Global,
    package: &[u8],
    part: &'a [u8],
) -> Result<(List<LibName>, &'a [u8]), TextFault>
    ensures found { IfOk result (λ p. NamedLibraries «package».now part.now p.0 p.1.now) }
    ensures fault { IfErr result (Refuses (λ cause. (cause ≡ BadDepend)
        × ((libs : List LibName) (rest : List ℕ) → NamedLibraries «package».now part.now libs rest → ⊥))) }
{
    match byte_after(part, b'{') {
        None => one_library(alloc, package, part),
        Some(list) => listed_libraries(alloc, package, list),
    }
}

fn one_library<'a>(
    alloc: Global,
    package: &[u8],
    part: &'a [u8],
) -> Result<(List<LibName>, &'a [u8]), TextFault>
    ensures found { IfOk result (λ p. (is_component_name (run is_component_byte part.now) ≡ true)
        × (p.0 ≡ library «package».now (run is_component_byte part.now) ∷ [])
        × (p.1.now ≡ behind is_component_byte part.now)) }
    ensures fault { IfErr result (Refuses (λ cause. (cause ≡ BadDepend)
        × (is_component_name (run is_component_byte part.now) ≡ false))) }
{
    let (name, rest) = component_run(part);
    if !is_component_name(name) {
        return Err(TextFault::Bad(Cause::BadDepend));
    }
    let lib = library(alloc, package, name)?;
    let libs = single(alloc, lib)?;
    Ok((libs, rest))
}

// A list of libraries, after its opening brace.
fn listed_libraries<'a>(
    alloc: Global,
    package: &[u8],
    list: &'a [u8],
) -> Result<(List<LibName>, &'a [u8]), TextFault>
    ensures found { IfOk result (λ p. (behind is_in_braces list.now ≡ 125 ∷ p.1.now)
        × ((pieces : List (List ℕ)) × Pieces (run is_in_braces list.now) pieces
        × Each (Library «package».now) pieces p.0)) }
    ensures fault { IfErr result (Refuses (λ cause. (cause ≡ BadDepend)
        × ((pieces : List (List ℕ)) (libs : List LibName) (rest : List ℕ)
        → behind is_in_braces list.now ≡ 125 ∷ rest
        → Pieces (run is_in_braces list.now) pieces → Each (Library «package».now) pieces libs → ⊥))) }
{
    let (inside, behind) = braces_run(list);
    match byte_after(behind, b'}') {
        None => Err(TextFault::Bad(Cause::BadDepend)),
        Some(rest) => {
            let libs = libraries_in(alloc, package, inside)?;
            Ok((libs, rest))
        }
    }
}

// The libraries between the braces.
fn libraries_in(alloc: Global, package: &[u8], inside: &[u8]) -> Result<List<LibName>, TextFault>
    ensures found { IfOk result (λ libs. (pieces : List (List ℕ)) × Pieces inside.now pieces
        × Each (Library «package».now) pieces libs) }
    ensures fault { IfErr result (Refuses (λ cause. (cause ≡ BadDepend)
        × ((pieces : List (List ℕ)) (libs : List LibName) → Pieces inside.now pieces
        → Each (Library «package».now) pieces libs → ⊥))) }
{
    let pieces = pieces(alloc, inside)?;
    let row = Listed { package };
    read_each(alloc, &row, pieces.as_slice())
}

// The libraries of a list.
#[derive(Clone, Copy)]
struct Listed<'a> {
    package: &'a [u8],
}

impl<'a> EntryKind for Listed<'a> {
    ghost use Rattle.std.specs.Prelude.{◌≡◌};
    ghost use Rattle.plan_types.specs.declared.refusal.Cause.TheVariants.{BadDepend};
    ghost use Rattle.plan_types.specs.declared.dependency.LibName.{LibName};
    ghost use Rattle.depend_text.specs.Depends.{Library};

    type Item = LibName;

    ghost stands = { λ row. Library row.«package».now };

    ghost fails = { λ row part cause. (cause ≡ BadDepend)
        × ((lib : LibName) → Library row.«package».now part lib → ⊥) };

    fn read(&self, alloc: Global, part: &[u8]) -> Result<LibName, TextFault> {
        let (name, rest) = component_run(unblank(part));
        if !is_component_name(name) {
            return Err(TextFault::Bad(Cause::BadDepend));
        }
        if !are_blanks(rest) {
            return Err(TextFault::Bad(Cause::BadDepend));
        }
        Ok(library(alloc, self.package, name)?)
    }
}

fn library(alloc: Global, package: &[u8], name: &[u8]) -> Result<LibName, NoMemory>
    requires { is_component_name name.now ≡ true }
    ensures { IfOk result (λ lib. lib ≡ library «package».now name.now) }
{
    if name == package {
        return Ok(LibName::Main);
    }
    let text = component_text(alloc, name)?;
    Ok(LibName::Named(text))
}

fn single(alloc: Global, lib: LibName) -> Result<List<LibName>, NoMemory>
    ensures { IfOk result (λ libs. libs ≡ lib ∷ []) }
{
    let mut libs = List::with_room(alloc, 1)?;
    libs.push(lib)?;
    Ok(libs)
}

/// The executable named after a package, and the text of the range.
pub fn executable<'a>(alloc: Global, text: &'a [u8]) -> Result<(Text, &'a [u8]), TextFault>
    ensures found { IfOk result (λ p. Executable text.now p.0 p.1.now) }
    ensures fault { IfErr result (Refuses (λ cause. (cause ≡ BadDepend)
        × ((exe rest : List ℕ) → Executable text.now exe rest → ⊥))) }
{
    let Some(part) = byte_after(text, b':') else {
        return Err(TextFault::Bad(Cause::BadDepend));
    };
    let (name, rest) = component_run(part);
    if !is_component_name(name) {
        return Err(TextFault::Bad(Cause::BadDepend));
    }
    let exe = component_text(alloc, name)?;
    Ok((exe, rest))
}
