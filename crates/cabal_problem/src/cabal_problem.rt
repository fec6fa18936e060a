// The problem of an index and a project, as calls for the search.
ghost use Rattle.std.specs.Prelude.{◌≡◌, ◌++◌, [], ◌<◌, IfOk, IsTrue, OnOk, length, map, slice_index_or, true};
ghost use Rattle.std.specs.List.{list_all};
ghost use Rattle.constraint_set.specs.Bars.{bars, bars_part, names_flag};
ghost use Rattle.constraint_set.specs.Stands.{Represents};
ghost use Rattle.flatten.specs.Sound.{IsSound, has_package};
ghost use Rattle.solver_index.specs.Defaults.{AreDefaults, default_of};
ghost use Rattle.solver_index.specs.Dependencies.{all_dependencies, entry_dependencies};
ghost use Rattle.solver_index.specs.Places.{entry_at};
ghost use Rattle.cabal_problem.specs.ListedDemands.{entry_demands, flag_allows, flag_values, one_if};
ghost use Rattle.cabal_problem.specs.Lawful.{is_lawful};
ghost use Rattle.cabal_problem.specs.Rows.{flag_row, in_pairs, source_rows};
ghost use Rattle.cabal_problem.specs.Values.{chosen_default, package_var, reused, with_others};
ghost use Rattle.plan_types.specs.Packages.{entries_of};

use crate::demands::{alone, part_beside, push_custom, push_deps, push_stanzas, unit_demands};
use crate::roots::roots_of;
use crate::values::{better_first, order_at, package_var, values_elsewhere, with_others};
use crate::variables::{domain_of, is_known};
use choice_problem::{Choice, Choices, Demand, Part, Qual, Trail, Var};
use constraint_set::Constraints;
use plan_types::{
    Body, Description, Entry, FlagDecl, Index, Instance, List, NoMemory, Package, Settings,
    drop_fields,
};
use qualified_goals::Names;
use solver_index::{Dependencies, Tables};
use std::alloc::Global;

/// The problem of an index and settings.
#[derive(Debug)]
pub struct CabalProblem<'a> {
    index: &'a Index,
    settings: &'a Settings,
    names: Names,
    constraints: Constraints,
    tables: Tables,
    ghost lawful: { IsTrue (is_lawful index.now.packages settings.now.project names tables.orders) },
    ghost stands: { ∥ Represents settings.now.project names constraints ∥₁ },
    ghost defaults: { ∥ AreDefaults index.now.packages names tables.defaults ∥₁ },
    ghost dependencies: { tables.dependencies ≡ all_dependencies index.now.packages settings.now.project names },
}

impl<'a> Drop for CabalProblem<'a> {
    fn drop(self) {
        drop_fields!(self; index, settings, names, constraints, tables);
    }
}

impl<'a> CabalProblem<'a> {
    ghost use Rattle.cabal_problem.specs.Problem.{IsProblemOf};
    ghost use Rattle.cabal_problem.specs.Shown.{index_in, names_in};

    /// The problem of an index that is sound in the environment and has each extra package.
    pub fn new(
        alloc: Global,
        index: &'a Index,
        settings: &'a Settings,
    ) -> Result<CabalProblem<'a>, NoMemory>
        requires sound { IsSound settings.now.env index.now }
        requires extra { list_all (λ named. has_package index.now named.name) settings.now.project.extra ≡ true }
        ensures index { IfOk result (λ made. index_in made ≡ index.now) }
        ensures problem { IfOk result (λ made. IsProblemOf index.now settings.now.project (names_in made)
            (⟦<CabalProblem<'a> as Choices>⟧.problem made)) }
    {
        let names = Names::of(alloc, index)?;
        let constraints = Constraints::of(alloc, &settings.project, &names)?;
        let packages = index.packages.as_slice();
        let tables = Tables::of(alloc, packages, &settings.project, &names, &constraints)?;
        Ok(CabalProblem {
            index,
            settings,
            names,
            constraints,
            tables,
        })
    }

    /// The index behind the problem.
    pub fn index(&self) -> &Index
        ensures { result.now ≡ index_in self.now }
    {
        self.index
    }

    /// The names of the index, by their numbers.
    pub fn names(&self) -> &Names
        ensures { result.now ≡ names_in self.now }
    {
        &self.names
    }

    /// The names, from a problem that isn't needed any more.
    pub fn into_names(self) -> Names
        ensures { result ≡ names_in self.entry }
    {
        let CabalProblem {
            index: _index,
            settings: _settings,
            names,
            constraints: _constraints,
            tables: _tables,
        } = self;
        names
    }

    fn bars(&self, v: Var, instance: &Instance) -> bool
        ensures { result ≡ bars self.now.settings.now.project self.now.names v instance.now }
    {
        self.constraints.bars(v, instance)
    }

    fn bars_part(&self, v: Var, on: bool) -> bool
        ensures { result ≡ bars_part self.now.settings.now.project self.now.names v on }
    {
        self.constraints.bars_part(v, on)
    }

    fn names_flag(&self, v: Var, on: bool) -> bool
        ensures { result ≡ names_flag self.now.settings.now.project self.now.names v on }
    {
        self.constraints.names_flag(v, on)
    }

    fn bars_instance(&self, c: Choice) -> bool
        requires { c.val < length (entries_of self.now.index.now.packages c.var.«package») }
        ensures { result ≡ bars self.now.settings.now.project self.now.names c.var
            (entry_at (entries_of self.now.index.now.packages c.var.«package») c.val).instance }
    {
        let entries = Package::entries_at(self.index.packages.as_slice(), c.var.package);
        self.bars(c.var, &entries[c.val as usize].instance)
    }

    // A manual flag may have its default, and the values that constraints on the package require.
    fn flag_allows(&self, v: Var, decl: &FlagDecl, on: bool) -> bool
        ensures { result ≡ flag_allows self.now.settings.now.project self.now.names v decl.now on }
    {
        let is_open = !decl.manual || decl.default == on;
        is_open || self.names_flag(v, on)
    }

    fn flag_values(&self, alloc: Global, v: Var, decl: &FlagDecl) -> Result<List<u64>, NoMemory>
        ensures { IfOk result (λ values. values ≡ flag_values self.now.settings.now.project self.now.names v decl.now) }
    {
        let mut values = List::new(alloc);
        push_if(&mut values, self.flag_allows(v, decl, false), 0)?;
        push_if(&mut values, self.flag_allows(v, decl, true), 1)?;
        Ok(values)
    }

    fn push_flags(
        &self,
        alloc: Global,
        found: &mut List<Demand>,
        owner: Choice,
        flags: &[FlagDecl],
        numbers: &[u64],
    ) -> Result<(), NoMemory>
        requires { length numbers.now ≡ length flags.now }
        ensures { OnOk result (found.new ≡ found.old ++ in_pairs
            (flag_row self.now.settings.now.project self.now.names owner) flags.now numbers.now) }
    {
        for (place, decl) in flags.iter().enumerate() {
            self.push_flag(alloc, found, owner, decl, numbers[place])?;
        }
        Ok(())
    }

    fn push_flag(
        &self,
        alloc: Global,
        found: &mut List<Demand>,
        owner: Choice,
        decl: &FlagDecl,
        number: u64,
    ) -> Result<(), NoMemory>
        ensures { OnOk result (found.new ≡ found.old
            ++ flag_row self.now.settings.now.project self.now.names owner decl.now number) }
    {
        let target = part_beside(owner, Part::Flag(number));
        let when = alone(alloc, owner)?;
        let allowed = self.flag_values(alloc, target, decl)?;
        found.push(Demand {
            when,
            target,
            allowed,
        })
    }

    fn source_demands(
        &self,
        alloc: Global,
        owner: Choice,
        d: &Description,
        dependencies: &Dependencies,
    ) -> Result<List<Demand>, NoMemory>
        requires { length dependencies.now.flags ≡ length d.now.flags }
        ensures { IfOk result (λ found. found ≡ source_rows self.now.index.now.packages self.now.settings.now.project
            self.now.names owner dependencies.now d.now) }
    {
        let packages = self.index.packages.as_slice();
        let mut found = List::new(alloc);
        self.push_flags(
            alloc,
            &mut found,
            owner,
            d.flags.as_slice(),
            dependencies.flags.as_slice(),
        )?;
        push_stanzas(alloc, &mut found, packages, owner, d)?;
        push_deps(
            alloc,
            &mut found,
            packages,
            owner,
            dependencies.deps.as_slice(),
        )?;
        push_custom(alloc, &mut found, owner, d, dependencies.setup.as_slice())?;
        Ok(found)
    }

    fn entry_demands(
        &self,
        alloc: Global,
        owner: Choice,
        entry: &Entry,
        dependencies: &Dependencies,
    ) -> Result<List<Demand>, NoMemory>
        requires { dependencies.now
            ≡ entry_dependencies self.now.index.now.packages self.now.settings.now.project self.now.names entry.now }
        ensures { IfOk result (λ found. found ≡ entry_demands self.now.index.now.packages self.now.settings.now.project
            self.now.names owner entry.now) }
    {
        match &entry.body {
            Body::Source(source) => {
                self.source_demands(alloc, owner, &source.description, dependencies)
            }
            Body::Installed { .. } => unit_demands(alloc, owner, dependencies.needs.as_slice()),
        }
    }

    fn package_demands(&self, alloc: Global, owner: Choice) -> Result<List<Demand>, NoMemory>
        requires { owner.val < length (entries_of self.now.index.now.packages owner.var.«package») }
        ensures { IfOk result (λ found. found
            ≡ entry_demands self.now.index.now.packages self.now.settings.now.project self.now.names owner
            (entry_at (entries_of self.now.index.now.packages owner.var.«package») owner.val)) }
    {
        let entries = Package::entries_at(self.index.packages.as_slice(), owner.var.package);
        let row = self.asked_by(owner.var.package);
        let place = owner.val as usize;
        self.entry_demands(alloc, owner, &entries[place], &row[place])
    }

    // What each instance of a package depends on.
    fn asked_by(&self, p: u64) -> &[Dependencies]
        ensures { result.now ≡ map (entry_dependencies self.now.index.now.packages self.now.settings.now.project
            self.now.names) (entries_of self.now.index.now.packages p) }
    {
        match self.tables.dependencies.as_slice().get(p as usize) {
            Some(row) => row.as_slice(),
            None => &[],
        }
    }

    // The instances of a package: first those chosen for it under other qualifiers, then the others by preference.
    fn instances(
        &self,
        alloc: Global,
        q: Qual,
        p: u64,
        trail: &Trail,
    ) -> Result<List<u64>, NoMemory>
        ensures { IfOk result (λ values. values
            ≡ with_others (reused trail.now (package_var q p)) (slice_index_or self.now.tables.orders p [])) }
    {
        let v = package_var(q, p);
        let taken = values_elsewhere(alloc, trail.instances_of(p), v)?;
        with_others(
            alloc,
            taken.as_slice(),
            order_at(self.tables.orders.as_slice(), p),
        )
    }

    // The default that the chosen instance declares for a flag.
    fn default_after(&self, f: u64, p: u64, instance: Option<u64>) -> bool
        ensures { result ≡ chosen_default self.now.names f (entries_of self.now.index.now.packages p) instance }
    {
        match instance {
            Some(i) => self.default_of(f, p, i),
            None => false,
        }
    }

    fn default_of(&self, f: u64, p: u64, i: u64) -> bool
        ensures { result ≡ default_of self.now.names f (entry_at (entries_of self.now.index.now.packages p) i).body }
    {
        self.tables.default_of(p, i, f)
    }
}

fn push_if(values: &mut List<u64>, wanted: bool, value: u64) -> Result<(), NoMemory>
    ensures { OnOk result (values.new ≡ values.old ++ one_if wanted value) }
{
    if wanted {
        values.push(value)?;
    }
    Ok(())
}

impl<'a> Choices for CabalProblem<'a> {
    ghost use Rattle.cabal_problem.specs.Problem.{problem_of};
    ghost use Rattle.cabal_problem.specs.Laws.{cabal_lawful};

    ghost problem = { λ w. problem_of w.index.now.packages w.settings.now.project w.names w.tables.orders };

    ghost lawful = { λ w. cabal_lawful w.index.now.packages w.settings.now.project w.names w.tables.orders w.lawful };

    fn known(&self, v: Var) -> bool {
        is_known(self.index.packages.as_slice(), &self.names, v)
    }

    fn domain(&self, v: Var) -> u64 {
        domain_of(self.index.packages.as_slice(), v)
    }

    fn roots(&self, alloc: Global) -> Result<List<Demand>, NoMemory> {
        let packages = self.index.packages.as_slice();
        let extra = self.settings.project.extra.as_slice();
        roots_of(alloc, packages, &self.names, extra)
    }

    fn order(&self, alloc: Global, v: Var, trail: &Trail) -> Result<List<u64>, NoMemory> {
        match v.part {
            Part::Package => self.instances(alloc, v.qual, v.package, trail),
            Part::Flag(f) => {
                let instance = trail.value_of(package_var(v.qual, v.package));
                better_first(alloc, self.default_after(f, v.package, instance))
            }
            Part::Tests => better_first(alloc, true),
            Part::Benches => better_first(alloc, true),
        }
    }

    fn barred(&self, c: Choice) -> bool {
        match c.var.part {
            Part::Package => self.bars_instance(c),
            Part::Flag(_) => self.bars_part(c.var, c.val == 1),
            Part::Tests => self.bars_part(c.var, c.val == 1),
            Part::Benches => self.bars_part(c.var, c.val == 1),
        }
    }

    fn demands(&self, alloc: Global, owner: Choice) -> Result<List<Demand>, NoMemory> {
        match owner.var.part {
            Part::Package => self.package_demands(alloc, owner),
            Part::Flag(_) => Ok(List::new(alloc)),
            Part::Tests => Ok(List::new(alloc)),
            Part::Benches => Ok(List::new(alloc)),
        }
    }
}
