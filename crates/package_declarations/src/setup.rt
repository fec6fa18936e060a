// The setup script of a package, and its dependencies.

ghost use Rattle.std.specs.Prelude.{◌≡◌, ◌++◌, [], ◌∷◌, ◌&&◌, flat_map, unwrap_or, codes, IfOk, OnOk};
ghost use Rattle.std.specs.List.{list_any};
ghost use Rattle.text_grammar.specs.Last.{last_given};
ghost use Rattle.package_declarations.specs.Setup.{any_version, custom_said, is_custom, is_dependency, is_setup, setup, setup_deps, setup_parts};
ghost use Rattle.stanza_imports.specs.Parts.{deps_said};

use plan_types::{Dep, DepKind, LibName, List, NoMemory, Range, Text};
use section_syntax::{File, Head, HeadField, Said, Section, SectionKind, SectionPart};
use std::alloc::Global;

/// Whether the package has its own setup script: by the last build type, else by whether there is a `custom-setup`.
pub fn is_custom(file: &File) -> bool
    ensures { result ≡ is_custom file.now }
{
    let unsaid = has_setup(file.sections.as_slice());
    last_build_type(file.heads.as_slice(), unsaid)
}

fn has_setup(sections: &[Section]) -> bool
    ensures { result ≡ list_any (λ section. is_setup section.kind) sections.now }
{
    sections.iter().any(|section| is_setup(section.kind))
}

fn is_setup(kind: SectionKind) -> bool
    ensures { result ≡ is_setup kind }
{
    kind == SectionKind::Setup
}

fn last_build_type(heads: &[HeadField], unsaid: bool) -> bool
    ensures { result ≡ unwrap_or (last_given (λ field. custom_said field.head) heads.now) unsaid }
{
    let mut custom = unsaid;
    for field in heads {
        custom = build_type(&field.head, custom);
    }
    custom
}

fn build_type(head: &Head, unsaid: bool) -> bool
    ensures { result ≡ unwrap_or (custom_said head.now) unsaid }
{
    match head {
        Head::BuildType(Some(said)) => *said,
        _ => unsaid,
    }
}

/// The dependencies of the setup script.
pub fn setup_deps(alloc: Global, file: &File) -> Result<List<Dep>, NoMemory>
    ensures { IfOk result (λ deps. deps ≡ setup file.now) }
{
    if !is_custom(file) {
        return Ok(List::new(alloc));
    }
    let sections = file.sections.as_slice();
    if has_deps(sections) {
        written(alloc, sections)
    } else {
        unwritten(alloc)
    }
}

fn has_deps(sections: &[Section]) -> bool
    ensures { result ≡ list_any (λ part. is_dependency part.said) (setup_parts sections.now) }
{
    sections.iter().any(|section| is_setup_with_deps(section))
}

fn is_setup_with_deps(section: &Section) -> bool
    ensures { result ≡ (is_setup section.now.kind && list_any (λ part. is_dependency part.said) section.now.parts) }
{
    is_setup(section.kind) && says_deps(section.parts.as_slice())
}

fn says_deps(parts: &[SectionPart]) -> bool
    ensures { result ≡ list_any (λ part. is_dependency part.said) parts.now }
{
    parts.iter().any(|part| is_dependency(&part.said))
}

fn is_dependency(said: &Said) -> bool
    ensures { result ≡ is_dependency said.now }
{
    match said {
        Said::Depends(_) => true,
        _ => false,
    }
}

fn written(alloc: Global, sections: &[Section]) -> Result<List<Dep>, NoMemory>
    ensures { IfOk result (λ deps. deps ≡ flat_map (λ part. deps_said part.said) (setup_parts sections.now)) }
{
    let mut deps = List::new(alloc);
    for section in sections {
        if is_setup(section.kind) {
            push_parts(alloc, section.parts.as_slice(), &mut deps)?;
        }
    }
    Ok(deps)
}

fn push_parts(alloc: Global, parts: &[SectionPart], deps: &mut List<Dep>) -> Result<(), NoMemory>
    ensures { OnOk result (deps.new ≡ deps.old ++ flat_map (λ part. deps_said part.said) parts.now) }
{
    for part in parts {
        push_said(alloc, &part.said, deps)?;
    }
    Ok(())
}

fn push_said(alloc: Global, said: &Said, deps: &mut List<Dep>) -> Result<(), NoMemory>
    ensures { OnOk result (deps.new ≡ deps.old ++ deps_said said.now) }
{
    match said {
        Said::Depends(Ok(found)) => push_deps(alloc, found.as_slice(), deps),
        _ => Ok(()),
    }
}

fn push_deps(alloc: Global, found: &[Dep], deps: &mut List<Dep>) -> Result<(), NoMemory>
    ensures { OnOk result (deps.new ≡ deps.old ++ found.now) }
{
    for dep in found {
        deps.push(dep.copy(alloc)?)?;
    }
    Ok(())
}

/// The default dependencies of a setup script: any version of `base` and `Cabal`.
fn unwritten(alloc: Global) -> Result<List<Dep>, NoMemory>
    ensures { IfOk result (λ deps. deps ≡ any_version (codes "base") ∷ any_version (codes "Cabal") ∷ []) }
{
    let mut deps = List::new(alloc);
    deps.push(any_version(alloc, "base")?)?;
    deps.push(any_version(alloc, "Cabal")?)?;
    Ok(deps)
}

fn any_version(alloc: Global, name: &str) -> Result<Dep, NoMemory>
    ensures { IfOk result (λ dep. dep ≡ any_version name.now) }
{
    let mut libs = List::new(alloc);
    libs.push(LibName::Main)?;
    let package = Text::from_str(alloc, name)?;
    Ok(Dep {
        line: 0,
        kind: DepKind::Setup,
        package,
        libs,
        exe: Text::new(alloc),
        range: Range::Any,
        internal: false,
    })
}
