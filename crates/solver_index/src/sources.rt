// The dependencies of each instance, with names as numbers and ranges as places.
ghost use Rattle.std.specs.Prelude.{◌≡◌, IfOk, map, slice_index_or, [], true};
ghost use Rattle.version_range.specs.Version.{has_versions};
ghost use Rattle.solver_index.specs.Dependencies.{all_dependencies, bit, part_of, setting_of};
ghost use Rattle.solver_index.specs.AllowedVersions.{allowed_versions};
ghost use Rattle.solver_index.specs.Places.{flag_number};
ghost use Rattle.solver_index.specs.Versions.{body_has_versions, deps_have_versions, entries_have_versions, flats_have_versions};

use crate::dependencies::{ConditionalDep, Dependencies, Setting, Target, UnitNeed};
use crate::inside_places::places_inside;
use crate::offers::allowed_by;
use crate::places::{flag_number, number};
use crate::units::{UnitPlaces, places_of};
use constraint_set::Constraints;
use plan_types::{
    Body, Dep, DepKind, Description, Entry, FlagDecl, FlatDep, Instance, List, Literal, NoMemory,
    Package, PartName, Project, Text, drop_fields,
};
use qualified_goals::{Names, Part};
use std::alloc::Global;
use version_range::Cuts;

/// The input of the tables.
pub(crate) struct Sources<'a> {
    pub packages: &'a [Package],
    pub project: &'a Project,
    pub names: &'a Names,
    pub constraints: &'a Constraints,
    pub units: List<UnitPlaces>,
}

impl<'a> Drop for Sources<'a> {
    fn drop(self) {
        drop_fields!(self; packages, project, names, constraints, units);
    }
}

impl<'a> Sources<'a> {
    ghost use Rattle.solver_index.specs.Sources.{AreAllowed, AreReady, body_in, dep_in, entry_in, need_in, needs_in, source_in, target_in};

    // The range of a tool isn't relaxed.
    fn cuts(
        &self,
        alloc: Global,
        owner: &Instance,
        kind: DepKind,
        dep: &Dep,
    ) -> Result<Cuts, NoMemory>
        requires ready { AreReady self.now }
        requires versions { has_versions dep.now.range ≡ true }
        ensures { IfOk result (AreAllowed kind
            (allowed_versions self.now.project.now owner.now dep.now) dep.now.range) }
    {
        match kind {
            DepKind::Library => self.relaxed(alloc, owner, dep),
            DepKind::Tool => Cuts::of(alloc, &dep.range),
            DepKind::Setup => self.relaxed(alloc, owner, dep),
        }
    }

    fn relaxed(&self, alloc: Global, owner: &Instance, dep: &Dep) -> Result<Cuts, NoMemory>
        requires ready { AreReady self.now }
        requires versions { has_versions dep.now.range ≡ true }
        ensures { IfOk result (AreAllowed DepKind.Library
            (allowed_versions self.now.project.now owner.now dep.now) dep.now.range) }
    {
        self.constraints
            .relaxed(alloc, owner, &dep.package, &dep.range)
    }

    fn target(
        &self,
        alloc: Global,
        owner: &Instance,
        kind: DepKind,
        dep: &Dep,
    ) -> Result<Target, NoMemory>
        requires ready { AreReady self.now }
        requires versions { has_versions dep.now.range ≡ true }
        ensures { IfOk result (λ target. target ≡ target_in self.now owner.now kind dep.now) }
    {
        let package = number(self.packages, self.names, &dep.package);
        let cuts = self.cuts(alloc, owner, kind, dep)?;
        let entries = Package::entries_at(self.packages, package);
        let inside = places_inside(alloc, &cuts, &dep.range, entries)?;
        let allowed = allowed_by(alloc, kind, dep, &inside, entries)?;
        Ok(Target { package, allowed })
    }

    fn targets(
        &self,
        alloc: Global,
        owner: &Instance,
        deps: &[Dep],
    ) -> Result<List<Target>, NoMemory>
        requires ready { AreReady self.now }
        requires versions { deps_have_versions deps.now ≡ true }
        ensures { IfOk result (λ targets. targets ≡ map (target_in self.now owner.now DepKind.Setup) deps.now) }
    {
        let mut targets = List::new(alloc);
        for dep in deps {
            targets.push(self.target(alloc, owner, DepKind::Setup, dep)?)?;
        }
        Ok(targets)
    }

    fn conditional_dep(
        &self,
        alloc: Global,
        owner: &Instance,
        flat: &FlatDep,
    ) -> Result<ConditionalDep, NoMemory>
        requires ready { AreReady self.now }
        requires versions { has_versions flat.now.dep.range ≡ true }
        ensures { IfOk result (λ dep. dep ≡ dep_in self.now owner.now flat.now) }
    {
        let when = settings(alloc, self.names, flat.when.as_slice())?;
        let dep = flat.dep.get();
        let target = self.target(alloc, owner, dep.kind, dep)?;
        Ok(ConditionalDep {
            when,
            kind: dep.kind,
            target,
        })
    }

    fn conditional_deps(
        &self,
        alloc: Global,
        owner: &Instance,
        flats: &[FlatDep],
    ) -> Result<List<ConditionalDep>, NoMemory>
        requires ready { AreReady self.now }
        requires versions { flats_have_versions flats.now ≡ true }
        ensures { IfOk result (λ deps. deps ≡ map (dep_in self.now owner.now) flats.now) }
    {
        let mut deps = List::new(alloc);
        for flat in flats {
            deps.push(self.conditional_dep(alloc, owner, flat)?)?;
        }
        Ok(deps)
    }

    fn need(&self, alloc: Global, id: &Text, name: &Text) -> Result<UnitNeed, NoMemory>
        requires { AreReady self.now }
        ensures { IfOk result (λ need. need ≡ need_in self.now id.now name.now) }
    {
        let package = number(self.packages, self.names, name);
        let places = places_of(self.units.as_slice(), package, id);
        let allowed = List::from_vec(Vec::from_slice(alloc, places)?);
        Ok(UnitNeed { package, allowed })
    }

    fn needs(&self, alloc: Global, ids: &[Text], names: &[Text]) -> Result<List<UnitNeed>, NoMemory>
        requires { AreReady self.now }
        ensures { IfOk result (λ needs. needs ≡ needs_in self.now ids.now names.now) }
    {
        let none = Text::new(alloc);
        let mut needs = List::new(alloc);
        for (place, name) in names.iter().enumerate() {
            let id = id_at(ids, place, &none);
            needs.push(self.need(alloc, id, name)?)?;
        }
        Ok(needs)
    }

    fn of_source(
        &self,
        alloc: Global,
        owner: &Instance,
        d: &Description,
        flats: &[FlatDep],
    ) -> Result<Dependencies, NoMemory>
        requires ready { AreReady self.now }
        requires deps { flats_have_versions flats.now ≡ true }
        requires setup { deps_have_versions d.now.setup ≡ true }
        ensures { IfOk result (λ made. made ≡ source_in self.now owner.now d.now flats.now) }
    {
        let flags = flag_numbers(alloc, self.names, d.flags.as_slice())?;
        let deps = self.conditional_deps(alloc, owner, flats)?;
        let setup = self.targets(alloc, owner, d.setup.as_slice())?;
        Ok(Dependencies {
            flags,
            deps,
            setup,
            needs: List::new(alloc),
        })
    }

    fn of_body(
        &self,
        alloc: Global,
        owner: &Instance,
        body: &Body,
    ) -> Result<Dependencies, NoMemory>
        requires ready { AreReady self.now }
        requires versions { body_has_versions body.now ≡ true }
        ensures { IfOk result (λ made. made ≡ body_in self.now owner.now body.now) }
    {
        match body {
            Body::Source(source) => {
                self.of_source(alloc, owner, &source.description, source.flat.as_slice())
            }
            Body::Installed { record_of, needs } => {
                let needs = self.needs(alloc, record_of.depends.as_slice(), needs.as_slice())?;
                Ok(of_unit(alloc, needs))
            }
        }
    }

    fn row(&self, alloc: Global, entries: &[Entry]) -> Result<List<Dependencies>, NoMemory>
        requires ready { AreReady self.now }
        requires versions { entries_have_versions entries.now ≡ true }
        ensures { IfOk result (λ row. row ≡ map (entry_in self.now) entries.now) }
    {
        let mut row = List::new(alloc);
        for entry in entries {
            row.push(self.of_body(alloc, &entry.instance, &entry.body)?)?;
        }
        Ok(row)
    }

    /// What each instance depends on, by package and instance.
    pub(crate) fn dependencies(&self, alloc: Global) -> Result<List<List<Dependencies>>, NoMemory>
        requires { AreReady self.now }
        ensures { IfOk result (λ made. made
            ≡ all_dependencies self.now.packages.now self.now.project.now self.now.names.now) }
    {
        let mut dependencies = List::new(alloc);
        for found in self.packages {
            dependencies.push(self.row(alloc, found.entries.as_slice())?)?;
        }
        Ok(dependencies)
    }
}

fn of_unit(alloc: Global, needs: List<UnitNeed>) -> Dependencies
    ensures { result ≡ record { flags = []; deps = []; setup = []; needs = needs } }
{
    Dependencies {
        flags: List::new(alloc),
        deps: List::new(alloc),
        setup: List::new(alloc),
        needs,
    }
}

fn id_at<'b>(ids: &'b [Text], place: usize, none: &'b Text) -> &'b Text
    requires { none.now ≡ [] }
    ensures { result.now ≡ slice_index_or ids.now place [] }
{
    match ids.get(place) {
        Some(id) => id,
        None => none,
    }
}

fn flag_numbers(alloc: Global, names: &Names, flags: &[FlagDecl]) -> Result<List<u64>, NoMemory>
    ensures { IfOk result (λ numbers. numbers ≡ map (λ decl. flag_number names.now decl.name) flags.now) }
{
    let mut numbers = List::new(alloc);
    for decl in flags {
        numbers.push(flag_number(names, &decl.name))?;
    }
    Ok(numbers)
}

fn settings(alloc: Global, names: &Names, literals: &[Literal]) -> Result<List<Setting>, NoMemory>
    ensures { IfOk result (λ when. when ≡ map (setting_of names.now) literals.now) }
{
    let mut when = List::new(alloc);
    for literal in literals {
        when.push(setting(names, literal))?;
    }
    Ok(when)
}

fn setting(names: &Names, literal: &Literal) -> Setting
    ensures { result ≡ setting_of names.now literal.now }
{
    Setting {
        part: part_of(names, &literal.part),
        val: bit(literal.on),
    }
}

fn part_of(names: &Names, part: &PartName) -> Part
    ensures { result ≡ part_of names.now part.now }
{
    match part {
        PartName::Flag(name) => Part::Flag(flag_number(names, name)),
        PartName::Tests => Part::Tests,
        PartName::Benches => Part::Benches,
    }
}

fn bit(on: bool) -> u64
    ensures { result ≡ bit on }
{
    if on { 1 } else { 0 }
}
