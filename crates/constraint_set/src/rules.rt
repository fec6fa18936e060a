// What constraints require, kept by the numbers of their packages and parts.
ghost use Rattle.std.specs.Prelude.{◌≡◌, [], ◌∷◌, OnOk, IfOk};
ghost use Rattle.qualified_goals.specs.declared.variable.Part.TheVariants.{Flag, Tests, Benches};
ghost use Rattle.constraint_set.specs.Bars.{is_unit, is_value, set_values};
ghost use Rattle.constraint_set.specs.NumberedScope.{numbered};
ghost use Rattle.constraint_set.specs.Rules.{AddsRules, AddsSettings, RulesAre, at_package, at_part, excluded, is_set, rule_bars, rules_of, rules_on, settings_as, settings_of, settings_on};

use crate::numbered_scope::NumberedScope;
use indexmap::IndexMap;
use keyed_lists::{Lists, push_at};
use plan_types::{Constraint, FlagSet, Instance, NoMemory, Origin, Range, What, drop_fields};
use qualified_goals::{Names, Part, Qual};
use std::alloc::Global;

/// What a constraint requires of an instance.
#[derive(Debug, Drop)]
pub(crate) enum Requirement {
    Range(Range),
    Installed,
    Source,
}

/// What a constraint requires of a package, and in which scope.
#[derive(Debug, Drop)]
pub(crate) struct Rule {
    pub scope: NumberedScope,
    pub wanted: Requirement,
}

/// The value that a constraint requires of a part, and in which scope.
#[derive(Clone, Copy, Debug, Drop)]
pub(crate) struct PartRule {
    pub scope: NumberedScope,
    pub on: bool,
}

/// A flag or a stanza of a package.
#[derive(Clone, Copy, Debug, Drop, PartialEq, Eq, Hash)]
pub(crate) struct PartOf {
    pub package: u64,
    pub part: Part,
}

/// What constraints require, by package and by part.
#[derive(Debug)]
pub(crate) struct Rules {
    pub packages: Lists<u64, Rule>,
    pub parts: Lists<PartOf, PartRule>,
}

impl Drop for Rules {
    fn drop(self) {
        drop_fields!(self; packages, parts);
    }
}

impl Requirement {
    fn excludes(&self, instance: &Instance) -> bool
        ensures { result ≡ excluded self.now instance.now }
    {
        match self {
            Requirement::Range(range) => !range.has(&instance.version),
            Requirement::Installed => !is_unit(instance),
            Requirement::Source => is_unit(instance),
        }
    }
}

pub(crate) fn is_unit(instance: &Instance) -> bool
    ensures { result ≡ is_unit instance.now.origin }
{
    match instance.origin {
        Origin::Installed => true,
        Origin::Local | Origin::Source => false,
    }
}

impl Rule {
    pub(crate) fn bars(&self, qual: Qual, instance: &Instance) -> bool
        ensures { result ≡ rule_bars qual instance.now self.now }
    {
        self.scope.covers(qual) && self.wanted.excludes(instance)
    }
}

impl PartRule {
    pub(crate) fn requires_value(&self, qual: Qual, on: bool) -> bool
        ensures { result ≡ is_set qual on self.now }
    {
        self.scope.covers(qual) && self.is(on)
    }

    pub(crate) fn is(&self, on: bool) -> bool
        ensures { result ≡ is_value self.now.on on }
    {
        self.on == on
    }
}

impl Rules {
    /// What some constraints require.
    pub(crate) fn of(
        alloc: Global,
        constraints: &[Constraint],
        names: &Names,
    ) -> Result<Rules, NoMemory>
        ensures { IfOk result (λ rules. RulesAre names.now constraints.now rules) }
    {
        let mut rules = Rules {
            packages: IndexMap::new(alloc),
            parts: IndexMap::new(alloc),
        };
        for constraint in constraints {
            rules.add_constraint(alloc, names, constraint)?;
        }
        Ok(rules)
    }

    // A constraint on a package that isn't in the index has no effect.
    fn add_constraint(
        &mut self,
        alloc: Global,
        names: &Names,
        constraint: &Constraint,
    ) -> Result<(), NoMemory>
        ensures packages { OnOk result (AddsRules self.old self.new (λ p. rules_on names.now p constraint.now)) }
        ensures parts { OnOk result (AddsSettings self.old self.new
            (λ p part. settings_on names.now p part constraint.now)) }
    {
        match names.package(&constraint.package) {
            Some(package) => self.add(alloc, names, package, constraint),
            None => Ok(()),
        }
    }

    fn add(
        &mut self,
        alloc: Global,
        names: &Names,
        package: u64,
        constraint: &Constraint,
    ) -> Result<(), NoMemory>
        ensures packages { OnOk result (AddsRules self.old self.new
            (at_package «package» (rules_of names.now constraint.now))) }
        ensures parts { OnOk result (AddsSettings self.old self.new
            (λ p part. at_package «package» (settings_of names.now part constraint.now) p)) }
    {
        let scope = NumberedScope::of(names, &constraint.scope);
        match &constraint.what {
            What::Range(range) => {
                let range = range.copy(alloc)?;
                self.add_rule(alloc, package, scope, Requirement::Range(range))
            }
            What::Installed => self.add_rule(alloc, package, scope, Requirement::Installed),
            What::Source => self.add_rule(alloc, package, scope, Requirement::Source),
            What::Flags(sets) => self.add_flags(alloc, names, package, scope, sets.as_slice()),
            What::Tests => self.add_setting(alloc, package, Part::Tests, scope, true),
            What::Benches => self.add_setting(alloc, package, Part::Benches, scope, true),
        }
    }

    fn add_rule(
        &mut self,
        alloc: Global,
        package: u64,
        scope: NumberedScope,
        wanted: Requirement,
    ) -> Result<(), NoMemory>
        ensures packages { OnOk result (AddsRules self.old self.new
            (at_package «package» (record { scope = scope; wanted = wanted } ∷ []))) }
        ensures parts { OnOk result (self.new.parts ≡ self.old.parts) }
    {
        push_at(alloc, &mut self.packages, package, Rule { scope, wanted })
    }

    fn add_setting(
        &mut self,
        alloc: Global,
        package: u64,
        part: Part,
        scope: NumberedScope,
        on: bool,
    ) -> Result<(), NoMemory>
        ensures packages { OnOk result (self.new.packages ≡ self.old.packages) }
        ensures parts { OnOk result (AddsSettings self.old self.new
            (at_part «package» part (record { scope = scope; on = on }))) }
    {
        let key = PartOf { package, part };
        let setting = PartRule { scope, on };
        push_at(alloc, &mut self.parts, key, setting)?;
        Ok(())
    }

    // A flag that no description declares has no variable.
    fn add_flags(
        &mut self,
        alloc: Global,
        names: &Names,
        package: u64,
        scope: NumberedScope,
        sets: &[FlagSet],
    ) -> Result<(), NoMemory>
        ensures packages { OnOk result (self.new.packages ≡ self.old.packages) }
        ensures parts { OnOk result (AddsSettings self.old self.new
            (λ p part. at_package «package» (settings_as scope (set_values names.now sets.now part)) p)) }
    {
        for set in sets {
            if let Some(flag) = names.flag(&set.name) {
                self.add_setting(alloc, package, Part::Flag(flag), scope, set.on)?;
            }
        }
        Ok(())
    }
}
