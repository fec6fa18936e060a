// The packages from which a plan is made.
ghost use Rattle.std.specs.Prelude.{◌≡◌};

use crate::{Cause, Dep, Description, FlagDecl, LibName, List, Shared, Text, Version, drop_fields};

/// A part of a package that is on or off.
#[derive(Debug, PartialEq, Eq, Drop)]
pub enum PartName {
    Flag(Text),
    Tests,
    Benches,
}

/// The value of a flag or stanza under which a dependency counts.
#[derive(Debug, PartialEq, Eq, Drop)]
pub struct Literal {
    pub part: PartName,
    pub on: bool,
}

/// A dependency that counts only where all its literals are true.
#[derive(Debug, Drop)]
pub struct FlatDep {
    pub when: List<Literal>,
    /// Shared with its description.
    pub dep: Shared<Dep>,
}

/// The libraries and executables of a package that other packages may use.
#[derive(Debug, PartialEq, Eq, Drop)]
pub struct Exposed {
    pub libs: List<LibName>,
    pub exes: List<Text>,
}

/// The description of a package, its demands on other packages, and its exposed components.
#[derive(Debug)]
pub struct Source {
    pub description: Description,
    pub flat: List<FlatDep>,
    pub exposed: Exposed,
}

impl Drop for Source {
    fn drop(self) {
        drop_fields!(self; description, flat, exposed);
    }
}

/// The record of an installed unit.
#[derive(Debug, PartialEq, Eq, Drop)]
pub struct UnitRecord {
    pub name: Text,
    pub version: Version,
    pub id: Text,
    /// The ids of the units that it needs.
    pub depends: List<Text>,
}

/// Where an instance comes from: a local package, the index, or a record of an installed unit.
#[derive(Clone, Copy, Debug, PartialEq, Eq)]
pub enum Origin {
    Local,
    Source,
    Installed,
}

/// A version of a package that can be chosen.
#[derive(Debug, PartialEq, Eq, Drop)]
pub struct Instance {
    pub name: Text,
    pub version: Version,
    pub origin: Origin,
    /// The id of the unit; empty unless it is installed.
    pub unit: Text,
}

/// The data of an instance: a description, or the record of a unit.
#[derive(Debug, Drop)]
pub enum Body {
    Source(Source),
    Installed {
        record_of: UnitRecord,
        /// For each unit of `depends`, the name of its package.
        needs: List<Text>,
    },
}

impl Body {
    ghost use Rattle.plan_types.specs.Packages.{declared_by, is_installed};

    /// The flags that an instance declares.
    pub fn declared_flags(&self) -> &[FlagDecl]
        ensures { result.now ≡ declared_by self.now }
    {
        match self {
            Body::Source(source) => source.description.flags.as_slice(),
            Body::Installed { .. } => &[],
        }
    }

    pub fn is_installed(&self) -> bool
        ensures { result ≡ is_installed self.now }
    {
        match self {
            Body::Source(_) => false,
            Body::Installed { .. } => true,
        }
    }
}

/// An instance and its data.
#[derive(Debug, Drop)]
pub struct Entry {
    pub instance: Instance,
    pub body: Body,
}

/// A package and its instances. An instance's number is its place in the list.
#[derive(Debug, Drop)]
pub struct Package {
    pub name: Text,
    pub local: bool,
    /// Whether the project plans it besides its local packages.
    pub extra: bool,
    pub entries: List<Entry>,
}

impl Package {
    ghost use Rattle.plan_types.specs.Packages.{entries_of};

    /// The instances of the package at a place in goal order; none after the last package.
    pub fn entries_at(packages: &[Package], place: u64) -> &[Entry]
        ensures { result.now ≡ entries_of packages.now place }
    {
        match packages.get(place as usize) {
            Some(found) => found.entries.as_slice(),
            None => &[],
        }
    }
}

/// The directories of the index and of the records of installed units.
#[derive(Debug, PartialEq, Eq, Drop)]
pub struct Places {
    pub index: Text,
    pub installed: Text,
}

/// A file of the index that is left out, and why. The line is 0 where the cause has none.
#[derive(Debug, PartialEq, Eq, Drop)]
pub struct Skipped {
    pub path: Text,
    pub line: u32,
    pub cause: Cause,
}

/// A field or section that was accepted unread, for the user's information.
#[derive(Debug, PartialEq, Eq, Drop)]
pub struct Warning {
    pub path: Text,
    pub line: u32,
    /// The name of the field or section.
    pub word: Text,
}

/// The packages from which a plan is made.
#[derive(Debug, Drop)]
pub struct Index {
    /// In goal order of their names.
    pub packages: List<Package>,
    pub skipped: List<Skipped>,
    pub warnings: List<Warning>,
}
