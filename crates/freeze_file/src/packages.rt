// The constraints of each package.
ghost use Rattle.std.specs.Prelude.{◌≡◌, ◌++◌, ◌∷◌, IfOk, OnOk};
ghost use Rattle.frozen_choices.specs.Frozen.{asked, asked_apart, asked_everywhere, asked_in_setup, asked_of, asked_of_local, asked_under, flags_asked, frozen_as, frozen_package, instance_asked, kind_of, setups_in};
ghost use Rattle.plan_types.specs.Packages.{package_at};
ghost use Rattle.frozen_choices.specs.Frozen.{entry_of};
ghost use Rattle.std.specs.Option.{option_copied};
ghost use Rattle.freeze_file.specs.Steps.{or_none};

use crate::flags::{automatic_beside, flags_beside};
use crate::instances::{declared_flags, entry_of, is_installed, is_uniform, name_at, version_of};
use cabal_problem::package_var;
use choice_problem::{Choice, Trail};
use freeze_text::are_flags;
use plan_types::{Constraint, Entry, FlagSet, List, NoMemory, Package, Range, Scope, Text, What};
use qualified_goals::{Names, Qual};
use solver_index::is_local;
use std::alloc::Global;

/// The trail to freeze, with the packages and names of its index.
#[derive(Drop)]
pub(crate) struct Frozen<'a> {
    pub packages: &'a [Package],
    pub names: &'a Names,
    pub trail: &'a Trail,
    /// The packages whose setups have choices.
    pub setups: &'a [u64],
}

impl Frozen<'_> {
    /// Appends the constraints of a package.
    pub(crate) fn push_package(
        &self,
        alloc: Global,
        constraints: &mut List<Constraint>,
        p: u64,
    ) -> Result<(), NoMemory>
        requires { self.now.setups.now ≡ setups_in self.now.packages.now self.now.trail.now }
        ensures { OnOk result (constraints.new ≡ constraints.old
            ++ frozen_package self.now.packages.now self.now.names.now self.now.trail.now p) }
    {
        match self.trail.instances_of(p) {
            [] => Ok(()),
            [first, others @ ..] => self.push_chosen(alloc, constraints, p, first, others),
        }
    }

    fn push_chosen(
        &self,
        alloc: Global,
        constraints: &mut List<Constraint>,
        p: u64,
        first: &Choice,
        others: &[Choice],
    ) -> Result<(), NoMemory>
        requires { self.now.setups.now ≡ setups_in self.now.packages.now self.now.trail.now }
        ensures { OnOk result (constraints.new ≡ constraints.old
            ++ frozen_as self.now.packages.now self.now.names.now self.now.trail.now p (first.now ∷ others.now)) }
    {
        if is_local(self.packages, p) {
            self.push_all_flags(alloc, constraints, first)
        } else if is_uniform(self.packages, first, others) {
            self.push_everywhere(alloc, constraints, first)
        } else {
            self.push_apart(alloc, constraints, p)
        }
    }

    fn push_everywhere(
        &self,
        alloc: Global,
        constraints: &mut List<Constraint>,
        choice: &Choice,
    ) -> Result<(), NoMemory>
        ensures { OnOk result (constraints.new ≡ constraints.old
            ++ asked_everywhere self.now.packages.now self.now.names.now self.now.trail.now choice.now) }
    {
        self.push_instance(alloc, constraints, &Scope::Any, choice)?;
        self.push_all_flags(alloc, constraints, choice)
    }

    // The flags of a local package, or of one whose instances are all alike.
    fn push_all_flags(
        &self,
        alloc: Global,
        constraints: &mut List<Constraint>,
        choice: &Choice,
    ) -> Result<(), NoMemory>
        ensures { OnOk result (constraints.new ≡ constraints.old
            ++ asked_of_local self.now.packages.now self.now.names.now self.now.trail.now choice.now) }
    {
        let flags = declared_flags(entry_of(self.packages, choice));
        let sets = flags_beside(alloc, self.names, self.trail, choice, flags)?;
        self.push_flags(alloc, constraints, &Scope::Any, choice, sets)
    }

    // Top level comes first, and then each setup.
    fn push_apart(
        &self,
        alloc: Global,
        constraints: &mut List<Constraint>,
        p: u64,
    ) -> Result<(), NoMemory>
        requires { self.now.setups.now ≡ setups_in self.now.packages.now self.now.trail.now }
        ensures { OnOk result (constraints.new ≡ constraints.old
            ++ asked_apart self.now.packages.now self.now.names.now self.now.trail.now p) }
    {
        self.push_under(alloc, constraints, &Scope::Top, Qual::Top, p)?;
        for s in self.setups {
            self.push_in_setup(alloc, constraints, p, *s)?;
        }
        Ok(())
    }

    fn push_in_setup(
        &self,
        alloc: Global,
        constraints: &mut List<Constraint>,
        p: u64,
        s: u64,
    ) -> Result<(), NoMemory>
        ensures { OnOk result (constraints.new ≡ constraints.old
            ++ asked_in_setup self.now.packages.now self.now.names.now self.now.trail.now p s) }
    {
        let owner = Text::from_str(alloc, name_at(self.packages, s))?;
        self.push_under(
            alloc,
            constraints,
            &Scope::SetupOf(owner),
            Qual::Setup(s),
            p,
        )
    }

    fn push_under(
        &self,
        alloc: Global,
        constraints: &mut List<Constraint>,
        scope: &Scope,
        qual: Qual,
        p: u64,
    ) -> Result<(), NoMemory>
        ensures { OnOk result (constraints.new ≡ constraints.old
            ++ asked_under self.now.packages.now self.now.names.now self.now.trail.now scope.now qual p) }
    {
        let var = package_var(qual, p);
        match self.trail.value_of(var) {
            None => Ok(()),
            Some(val) => self.push_choice(alloc, constraints, scope, &Choice { var, val }),
        }
    }

    fn push_choice(
        &self,
        alloc: Global,
        constraints: &mut List<Constraint>,
        scope: &Scope,
        choice: &Choice,
    ) -> Result<(), NoMemory>
        ensures { OnOk result (constraints.new ≡ constraints.old
            ++ asked_of self.now.packages.now self.now.names.now self.now.trail.now scope.now choice.now) }
    {
        self.push_instance(alloc, constraints, scope, choice)?;
        let entries = Package::entries_at(self.packages, choice.var.package);
        let flags = declared_flags(entry_of(self.packages, choice));
        let sets = automatic_beside(alloc, self.names, self.trail, choice, flags, entries)?;
        self.push_flags(alloc, constraints, scope, choice, sets)
    }

    fn push_instance(
        &self,
        alloc: Global,
        constraints: &mut List<Constraint>,
        scope: &Scope,
        choice: &Choice,
    ) -> Result<(), NoMemory>
        ensures { OnOk result (constraints.new ≡ constraints.old
            ++ instance_asked scope.now (package_at self.now.packages.now choice.now.var.«package»).name
            (entry_of self.now.packages.now choice.now)) }
    {
        let name = name_at(self.packages, choice.var.package);
        let entry = entry_of(self.packages, choice);
        let version = version_of(alloc, entry)?;
        constraints.push(asked(alloc, scope, name, What::Range(Range::Equal(version)))?)?;
        constraints.push(asked(alloc, scope, name, kind_of(entry))?)
    }

    fn push_flags(
        &self,
        alloc: Global,
        constraints: &mut List<Constraint>,
        scope: &Scope,
        choice: &Choice,
        sets: List<FlagSet>,
    ) -> Result<(), NoMemory>
        ensures { OnOk result (constraints.new ≡ constraints.old
            ++ flags_asked scope.now (package_at self.now.packages.now choice.now.var.«package»).name sets) }
    {
        if are_flags(sets.as_slice()) {
            let name = name_at(self.packages, choice.var.package);
            constraints.push(asked(alloc, scope, name, What::Flags(sets))?)?;
        }
        Ok(())
    }
}

// `installed` or `source`.
fn kind_of(entry: Option<&Entry>) -> What
    ensures { result ≡ kind_of (or_none (option_copied entry.entry)) }
{
    if is_installed(entry) {
        What::Installed
    } else {
        What::Source
    }
}

fn asked(alloc: Global, scope: &Scope, name: &str, what: What) -> Result<Constraint, NoMemory>
    ensures { IfOk result (λ constraint. constraint ≡ asked scope.now name.now what) }
{
    let scope = copied(scope)?;
    let package = Text::from_str(alloc, name)?;
    Ok(Constraint {
        scope,
        package,
        what,
    })
}

fn copied(scope: &Scope) -> Result<Scope, NoMemory>
    ensures { IfOk result (λ copied. copied ≡ scope.now) }
{
    match scope {
        Scope::Top => Ok(Scope::Top),
        Scope::Any => Ok(Scope::Any),
        Scope::Setup => Ok(Scope::Setup),
        Scope::SetupOf(owner) => {
            let owner = owner.copy()?;
            Ok(Scope::SetupOf(owner))
        }
    }
}
