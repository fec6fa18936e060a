// Dependencies, named ranges and relaxings.
ghost use Rattle.std.specs.Prelude.{◌≡◌, IfOk};

use crate::{List, NoMemory, Range, Text, Version};
use std::alloc::Global;

/// A library of a package: the main one, or one with a name of its own.
#[derive(Debug, PartialEq, Eq, Drop)]
pub enum LibName {
    Main,
    Named(Text),
}

impl LibName {
    ghost use Rattle.plan_types.specs.Packages.{library_name};

    pub fn copy(&self) -> Result<LibName, NoMemory>
        ensures { IfOk result (λ copied. copied ≡ self.now) }
    {
        match self {
            LibName::Main => Ok(LibName::Main),
            LibName::Named(name) => Ok(LibName::Named(name.copy()?)),
        }
    }

    /// The name of the library; empty for the main one.
    pub fn as_str(&self) -> &str
        ensures { result.now ≡ library_name self.now }
    {
        match self {
            LibName::Main => "",
            LibName::Named(name) => name.as_str(),
        }
    }
}

/// The kind of a dependency: on libraries, on an executable for the build, or on libraries for the setup script.
#[derive(Clone, Copy, Debug, PartialEq, Eq)]
pub enum DepKind {
    Library,
    Tool,
    Setup,
}

/// A dependency of a description.
#[derive(Debug, Drop)]
pub struct Dep {
    /// The line of the field's name, from 1.
    pub line: u32,
    pub kind: DepKind,
    pub package: Text,
    /// In written order; none for a tool.
    pub libs: List<LibName>,
    /// Empty unless the dependency is on a tool.
    pub exe: Text,
    pub range: Range,
    /// Whether the target is a component of the same package.
    pub internal: bool,
}

impl Dep {
    pub fn copy(&self, alloc: Global) -> Result<Dep, NoMemory>
        ensures { IfOk result (λ copied. copied ≡ self.now) }
    {
        let libs = copy_libs(alloc, &self.libs)?;
        let package = self.package.copy()?;
        let exe = self.exe.copy()?;
        let range = self.range.copy(alloc)?;
        Ok(Dep {
            line: self.line,
            kind: self.kind,
            package,
            libs,
            exe,
            range,
            internal: self.internal,
        })
    }
}

fn copy_libs(alloc: Global, libs: &List<LibName>) -> Result<List<LibName>, NoMemory>
    ensures { IfOk result (λ copied. copied ≡ libs.now) }
{
    let mut copied = List::with_room(alloc, libs.len())?;
    for lib in libs.as_slice() {
        copied.push(lib.copy()?)?;
    }
    Ok(copied)
}

/// A package and a range of its versions.
#[derive(Debug, Drop)]
pub struct Named {
    pub name: Text,
    pub range: Range,
}

/// Whose dependencies are relaxed: those of every package, of a package, or of one version of it.
#[derive(Debug, PartialEq, Eq, Drop)]
pub enum RelaxOwner {
    Any,
    Package(Text),
    Release(Text, Version),
}

/// Dependencies whose ranges are relaxed: on one package, or all.
#[derive(Debug, PartialEq, Eq, Drop)]
pub struct Relax {
    pub owner: RelaxOwner,
    pub dep: Option<Text>,
}
