// The description of a package, from its `.cabal` file.
ghost use Rattle.std.specs.Prelude.{◌≡◌, All, Some, slice_get};
ghost use Rattle.plan_types.specs.Guarded.{AreTabled, build, in_groups};

use crate::{Cond, Conditions, Dep, Guard, List, Shared, Spec, Text, Version, drop_fields};
use std::marker::Model;

/// The kind of a component.
#[derive(Clone, Copy, Debug, PartialEq, Eq)]
pub enum CompKind {
    Library,
    Executable,
    Test,
    Bench,
    Foreign,
}

/// Dependencies, and the condition of the branches around them.
#[derive(Debug, Drop)]
pub struct DepGroup {
    pub when: Guard,
    /// The number of the condition in the component's table.
    pub number: usize,
    pub deps: List<Shared<Dep>>,
}

/// The condition under which a component is buildable, and its dependencies in file order. Neighbours under the same
/// branches form a group. One table has all of their conditions. A contract sees the dependencies one by one.
#[derive(Debug, Drop)]
pub struct BuildInfo {
    conds: Conditions,
    buildable: Guard,
    /// The number of `buildable` in the table.
    place: usize,
    groups: List<DepGroup>,
}

impl Model for BuildInfo {
    ghost use Rattle.std.specs.Prelude.{◌≡◌, List, Some, slice_get};
    ghost use Rattle.std.specs.Coded.{codes};
    ghost use Rattle.plan_types.specs.contracts.condition.Cond as conditions;
    ghost use Rattle.plan_types.specs.contracts.range.Range as ranges;
    ghost use Rattle.plan_types.specs.Guarded.{AreTabled, Build, build};

    ghost Value = { Build };

    ghost coded = { Prim.hlevel (codes, conditions.the_row.coded, ranges.the_row.coded) };

    ghost view = { λ info. build info.buildable info.groups };

    ghost invariant = { λ info. (slice_get info.conds info.place ≡ Some info.buildable)
        × AreTabled info.conds info.groups };
}

impl BuildInfo {
    /// A condition and groups whose conditions are in a table, with the condition's number there.
    pub fn new(
        conds: Conditions,
        buildable: Guard,
        place: usize,
        groups: List<DepGroup>,
    ) -> BuildInfo
        requires buildable { slice_get conds place ≡ Some buildable }
        requires groups { AreTabled conds groups }
        ensures { result ≡ build buildable groups }
    {
        BuildInfo {
            conds,
            buildable,
            place,
            groups,
        }
    }

    /// The condition under which the component is buildable.
    pub fn buildable(&self) -> &Cond
        ensures { result.now ≡ self.now.buildable }
    {
        self.buildable.get()
    }

    /// The dependencies, by groups.
    pub fn groups(&self) -> &[DepGroup]
        ensures { in_groups result.now ≡ self.now.deps }
    {
        self.groups.as_slice()
    }

    /// The table of conditions, the number of `buildable` there, and the groups.
    pub fn tabled(&self) -> (&Conditions, usize, &[DepGroup])
        ensures buildable { slice_get result.0.now result.1 ≡ Some self.now.buildable }
        ensures groups { in_groups result.2.now ≡ self.now.deps }
        ensures tabled { AreTabled result.0.now result.2.now }
    {
        (&self.conds, self.place, self.groups.as_slice())
    }
}

/// A component of a package.
#[derive(Debug)]
pub struct Component {
    /// The line of its section, from 1.
    pub line: u32,
    pub kind: CompKind,
    /// Empty for the main library.
    pub name: Text,
    /// Whether it is a named library that other packages may use.
    pub public: bool,
    /// Imported dependencies come first.
    pub build: BuildInfo,
}

impl Drop for Component {
    fn drop(self) {
        drop_fields!(self; line, kind, name, public, build);
    }
}

/// A flag that a package declares. Its name is in lower case.
#[derive(Debug, PartialEq, Eq, Drop)]
pub struct FlagDecl {
    /// The line of its section, from 1.
    pub line: u32,
    pub name: Text,
    pub default: bool,
    /// Whether the planner may choose only its default, unless a constraint sets it.
    pub manual: bool,
}

/// The contents of a `.cabal` file.
#[derive(Debug)]
pub struct Description {
    pub spec: Spec,
    pub name: Text,
    pub version: Version,
    /// Whether the package has a setup script of its own.
    pub custom: bool,
    /// In the order of their names.
    pub flags: List<FlagDecl>,
    /// In file order.
    pub components: List<Component>,
    /// The dependencies of the setup script. Default ones have the line 0.
    pub setup: List<Dep>,
    /// The SHA-256 of the file, as digits in lower case.
    pub digest: Text,
    /// The line of each field `build-tools`, from 1, in file order.
    pub warnings: List<u32>,
}

impl Drop for Description {
    fn drop(self) {
        drop_fields!(self; spec, name, version, custom, flags, components, setup, digest, warnings);
    }
}
