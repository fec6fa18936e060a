// The names that a package declares, and the meaning of its dependencies.

ghost use Rattle.std.specs.Prelude.{◌≡◌, ◌&&◌, ◌||◌, ℕ, true, List, [], ◌∷◌, Option, IfOk, OnOk};
ghost use Rattle.std.specs.List.{list_all};
ghost use Rattle.plan_types.specs.declared.dependency.LibName.TheVariants.{Named};
ghost use Rattle.section_syntax.specs.declared.part.File.{File};
ghost use Rattle.section_syntax.specs.declared.part.Section.{Section};
ghost use Rattle.package_declarations.specs.Declarations.{declares, has_flags, is_executable, is_flag, is_bare, is_known, is_library, is_own, known_by, meaning, meaning_by, meant, meant_as, name_behind, own_name};
ghost use Rattle.stanza_imports.specs.Names.{has};
ghost use Rattle.plan_types.specs.Bytes.{same_text};
ghost use Rattle.plan_types.specs.Packages.{library_name, is_main};
ghost use Rattle.package_declarations.specs.DeclaredNames.{shown, RepresentsNames};
ghost use Rattle.package_declarations.specs.AskedSections.{is_of};

use plan_types::{CompKind, Cond, Dep, DepKind, LibName, List, NoMemory, Spec, Text, drop_fields};
use section_syntax::{File, Head, HeadField, Section, SectionKind};
use stanza_imports::NameSet;
use std::alloc::Global;

/// The declared names of a package. The main library has the empty name.
pub struct Declared<'a> {
    spec: Spec,
    /// The package's own name.
    pub name: Option<&'a Text>,
    flags: NameSet<'a>,
    libraries: NameSet<'a>,
    executables: NameSet<'a>,
}

impl<'a> Drop for Declared<'a> {
    fn drop(self) {
        drop_fields!(self; spec, name, flags, libraries, executables);
    }
}

/// The meaning of a dependency in its package.
#[derive(Clone, Copy, Debug, PartialEq, Eq)]
pub enum Meaning {
    /// Another package.
    Other,
    /// Components of the package itself.
    Own,
    /// A library of the package that has a name of its own, named as if it were a package.
    OwnLibrary,
}

impl<'a> Declared<'a> {
    pub fn of(alloc: Global, file: &'a File) -> Result<Declared<'a>, NoMemory>
        ensures { IfOk result (λ declared. RepresentsNames declared file.now) }
    {
        let sections = file.sections.as_slice();
        Ok(Declared {
            spec: file.spec,
            name: own_name(file.heads.as_slice()),
            flags: names_of(alloc, sections, Declares::Flag)?,
            libraries: names_of(alloc, sections, Declares::Library)?,
            executables: names_of(alloc, sections, Declares::Executable)?,
        })
    }

    fn has_library(&self, lib: &LibName) -> bool
        ensures { (file : File) → RepresentsNames self.now file
            → result ≡ declares is_library file.sections (library_name lib.now) }
    {
        match lib {
            LibName::Main => self.libraries.has(""),
            LibName::Named(name) => self.libraries.has(name.as_str()),
        }
    }

    fn meaning_of(&self, dep: &Dep) -> Meaning
        ensures { (file : File) → RepresentsNames self.now file → result ≡ meaning file dep.now }
    {
        let own = self.is_own(&dep.package);
        let bare = is_bare(self.spec, dep.libs.as_slice());
        let library = self.libraries.has(dep.package.as_str());
        meaning_by(dep.kind, own, bare, library)
    }

    pub fn is_own(&self, name: &Text) -> bool
        ensures { (file : File) → RepresentsNames self.now file → result ≡ is_own (own_name file.heads) name.now }
    {
        match self.name {
            Some(own) => own == name,
            None => false,
        }
    }

    /// Whether all components of the own package that the dependency names are declared.
    pub fn is_known(&self, dep: &Dep) -> bool
        ensures { (file : File) → RepresentsNames self.now file → result ≡ is_known file dep.now }
    {
        let libraries = self.has_libraries(dep.libs.as_slice());
        let executable = self.executables.has(dep.exe.as_str());
        known_by(self.meaning_of(dep), dep.kind, libraries, executable)
    }

    fn has_libraries(&self, libs: &[LibName]) -> bool
        ensures { (file : File) → RepresentsNames self.now file
            → result ≡ list_all (λ l. declares is_library file.sections (library_name l)) libs.now }
    {
        for lib in libs {
            if !self.has_library(lib) {
                return false;
            }
        }
        true
    }

    /// Whether each flag that a condition names is declared.
    pub fn has_flags(&self, cond: &Cond) -> bool
        ensures { (file : File) → RepresentsNames self.now file → result ≡ has_flags file.sections cond.now }
    {
        let mut left = cond;
        loop {
            match left {
                Cond::Flag(name) => return self.flags.has(name.as_str()),
                Cond::Always => return true,
                Cond::Never => return true,
                Cond::Os(_) => return true,
                Cond::Arch(_) => return true,
                Cond::Impl(_, _) => return true,
                Cond::Not(inner) => left = inner.get(),
                Cond::And(one, other) => {
                    if !self.has_flags(other.get()) {
                        return false;
                    }
                    left = one.get();
                }
                Cond::Or(one, other) => {
                    if !self.has_flags(other.get()) {
                        return false;
                    }
                    left = one.get();
                }
            }
        }
    }

    /// A copy of the dependency with its meaning resolved.
    pub fn meant(&self, alloc: Global, dep: &Dep) -> Result<Dep, NoMemory>
        ensures { IfOk result (λ found. (file : File) → RepresentsNames self.now file → found ≡ meant file dep.now) }
    {
        let meaning = self.meaning_of(dep);
        let found = meant_as(alloc, meaning, self.name, dep)?;
        Ok(found)
    }
}

fn meaning_by(kind: DepKind, own: bool, bare: bool, library: bool) -> Meaning
    ensures { result ≡ meaning_by kind own (bare && library) }
{
    match kind {
        DepKind::Library => {
            if own {
                Meaning::Own
            } else if bare && library {
                Meaning::OwnLibrary
            } else {
                Meaning::Other
            }
        }
        DepKind::Tool => { if own { Meaning::Own } else { Meaning::Other } }
        DepKind::Setup => Meaning::Other,
    }
}

fn known_by(meaning: Meaning, kind: DepKind, libraries: bool, executable: bool) -> bool
    ensures { result ≡ known_by meaning kind libraries executable }
{
    match meaning {
        Meaning::Other | Meaning::OwnLibrary => true,
        Meaning::Own => match kind {
            DepKind::Library => libraries,
            DepKind::Tool => executable,
            DepKind::Setup => true,
        },
    }
}

fn meant_as(alloc: Global, meaning: Meaning, own: Option<&Text>, dep: &Dep) -> Result<Dep, NoMemory>
    ensures { IfOk result (λ found. found ≡ meant_as meaning (shown own.entry) dep.now) }
{
    match meaning {
        Meaning::Other => dep.copy(alloc),
        Meaning::Own => internal(alloc, dep),
        Meaning::OwnLibrary => match own {
            Some(own) => own_library(alloc, own, dep),
            None => dep.copy(alloc),
        },
    }
}

fn internal(alloc: Global, dep: &Dep) -> Result<Dep, NoMemory>
    ensures { IfOk result (λ found. found ≡ record dep.now { internal = true }) }
{
    let mut found = dep.copy(alloc)?;
    found.internal = true;
    Ok(found)
}

fn own_library(alloc: Global, own: &Text, dep: &Dep) -> Result<Dep, NoMemory>
    ensures { IfOk result (λ found.
        found ≡ record dep.now { «package» = own.now; libs = Named dep.now.«package» ∷ []; internal = true }) }
{
    let mut libs = List::new(alloc);
    libs.push(LibName::Named(dep.package.copy()?))?;
    let mut found = internal(alloc, dep)?;
    found.package = own.copy()?;
    found.libs = libs;
    Ok(found)
}

/// The last `name` counts, even if it is ill-formed.
fn own_name(heads: &[HeadField]) -> Option<&Text>
    ensures { shown result ≡ own_name heads.now }
{
    let mut name = None;
    for field in heads {
        name = name_behind(name, &field.head);
    }
    name
}

/// The name after one more field.
fn name_behind<'a>(before: Option<&'a Text>, head: &'a Head) -> Option<&'a Text>
    ensures { shown result ≡ name_behind (shown before.entry) head.now }
{
    match head {
        Head::Name(name) => name.as_ref(),
        Head::Version(_) => before,
        Head::BuildType(_) => before,
    }
}

/// Whether the dependency's package name may be the name of a library of this package.
fn is_bare(spec: Spec, libs: &[LibName]) -> bool
    ensures { result ≡ is_bare spec libs.now }
{
    spec.has_bare_libraries() && are_main(libs)
}

fn are_main(libs: &[LibName]) -> bool
    ensures { result ≡ list_all is_main libs.now }
{
    libs.iter().all(is_main)
}

fn is_main(lib: &LibName) -> bool
    ensures { result ≡ is_main lib.now }
{
    match lib {
        LibName::Main => true,
        LibName::Named(_) => false,
    }
}

/// Kinds of sections by which names are looked up.
#[derive(Clone, Copy)]
enum Declares {
    Flag,
    Library,
    Executable,
}

fn is_of(asked: Declares, kind: SectionKind) -> bool
    ensures { result ≡ is_of asked kind }
{
    match asked {
        Declares::Flag => kind == SectionKind::Flag,
        Declares::Library => kind == SectionKind::Component(CompKind::Library),
        Declares::Executable => kind == SectionKind::Component(CompKind::Executable),
    }
}

fn names_of<'a>(
    alloc: Global,
    sections: &'a [Section],
    asked: Declares,
) -> Result<NameSet<'a>, NoMemory>
    ensures { IfOk result (λ names. (name : List ℕ) → has names name ≡ declares (is_of asked) sections.now name) }
{
    let mut names = NameSet::new(alloc);
    for section in sections {
        put(
            &mut names,
            section.name.as_str(),
            is_of(asked, section.kind),
        )?;
    }
    Ok(names)
}

fn put<'a>(names: &mut NameSet<'a>, name: &'a str, wanted: bool) -> Result<(), NoMemory>
    ensures { OnOk result ((other : List ℕ)
        → has names.new other ≡ (has names.old other || (wanted && same_text other name.now))) }
{
    if wanted {
        names.insert(name)?;
    }
    Ok(())
}
