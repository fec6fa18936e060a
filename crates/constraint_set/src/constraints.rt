// What the constraints of a project bar, as tests for the search.
ghost use Rattle.std.specs.Prelude.{◌≡◌, ◌&&◌, ◌||◌, not, true, false, nat_eq, IfOk};
ghost use Rattle.std.specs.List.{list_any};
ghost use Rattle.plan_types.specs.Members.{members};
ghost use Rattle.plan_types.specs.declared.project.Project.{Project};
ghost use Rattle.qualified_goals.specs.Names.{NameTable, is_listed};
ghost use Rattle.version_range.specs.Version.{has_versions};
ghost use Rattle.version_range.specs.Cuts.{Relaxes, inside};
ghost use Rattle.constraint_set.specs.Bars.{bars, bars_part, boot_libraries, is_unit, is_value, names_flag, requires_stanza};
ghost use Rattle.keyed_lists.specs.Lists.{items_at};
ghost use Rattle.constraint_set.specs.Relaxed.{relaxes};
ghost use Rattle.constraint_set.specs.Rules.{is_set, rule_bars, settings_at};
ghost use Rattle.constraint_set.specs.Stands.{Represents};

use crate::relaxing::Relaxing;
use crate::rules::{PartOf, PartRule, Rules, is_unit};
use keyed_lists::items_at;
use plan_types::{Instance, NoMemory, Project, Range, Text, drop_fields};
use qualified_goals::{Names, Part, Var};
use std::alloc::Global;
use version_range::Cuts;

/// What the constraints of a project bar, and what it relaxes. Rules and settings are kept by the number of their
/// package or part, so that a test looks at no others.
#[derive(Debug)]
pub struct Constraints {
    rules: Rules,
    newer: Relaxing,
    older: Relaxing,
    tests: bool,
    benchmarks: bool,
    boot_installs: bool,
}

impl Drop for Constraints {
    fn drop(self) {
        drop_fields!(self; rules, newer, older, tests, benchmarks, boot_installs);
    }
}

impl Constraints {
    /// The constraints of a project, by the numbers of their names.
    pub fn of(alloc: Global, project: &Project, names: &Names) -> Result<Constraints, NoMemory>
        ensures { IfOk result (λ kept. Represents project.now names.now kept) }
    {
        let rules = Rules::of(alloc, project.constraints.as_slice(), names)?;
        let newer = Relaxing::of(alloc, project.newer.as_slice())?;
        let older = Relaxing::of(alloc, project.older.as_slice())?;
        Ok(Constraints {
            rules,
            newer,
            older,
            tests: project.tests,
            benchmarks: project.benchmarks,
            boot_installs: project.boot_installs,
        })
    }

    /// Whether an instance of the package of a variable may not be chosen.
    pub fn bars(&self, v: Var, instance: &Instance) -> bool
        ensures { (project : Project) (names : NameTable) → Represents project names self.now
            → result ≡ bars project names v instance.now }
    {
        self.rules_bar(v, instance) || self.is_boot(instance)
    }

    /// Whether a flag or a stanza may not have this value.
    pub fn bars_part(&self, v: Var, on: bool) -> bool
        ensures { (project : Project) (names : NameTable) → Represents project names self.now
            → result ≡ bars_part project names v on }
    {
        self.is_asked(v, !on) || (self.requires_stanza(v.part) && !on)
    }

    /// Whether some constraint on the package of a variable, whatever its scope, requires this value of the flag.
    pub fn names_flag(&self, v: Var, on: bool) -> bool
        ensures { (project : Project) (names : NameTable) → Represents project names self.now
            → result ≡ names_flag project names v on }
    {
        self.is_named(v, on)
    }

    /// The versions that a dependency of an instance allows, after the project's relaxing.
    pub fn relaxed(
        &self,
        alloc: Global,
        owner: &Instance,
        dep: &Text,
        range: &Range,
    ) -> Result<Cuts, NoMemory>
        requires { has_versions range.now ≡ true }
        ensures { (project : Project) (names : NameTable) → Represents project names self.now →
            IfOk result (λ cuts. Relaxes (relaxes project.newer owner.now dep.now)
            (relaxes project.older owner.now dep.now)
            (members range.now) (inside cuts)) }
    {
        let newer = self.newer.relaxes(owner, dep);
        let older = self.older.relaxes(owner, dep);
        let mut cuts = Cuts::of(alloc, range)?;
        let_newer(&mut cuts, newer);
        let_older(&mut cuts, older);
        Ok(cuts)
    }

    fn rules_bar(&self, v: Var, instance: &Instance) -> bool
        ensures { result ≡ list_any (rule_bars v.qual instance.now)
            (items_at nat_eq self.now.rules.packages v.«package») }
    {
        items_at(&self.rules.packages, &v.package)
            .iter()
            .any(|rule| rule.bars(v.qual, instance))
    }

    fn is_boot(&self, instance: &Instance) -> bool
        ensures { result ≡ (is_listed boot_libraries instance.now.name && not (is_unit instance.now.origin)
            && not self.now.boot_installs) }
    {
        is_boot_library(instance.name.as_str()) && !is_unit(instance) && !self.boot_installs
    }

    fn is_asked(&self, v: Var, on: bool) -> bool
        ensures { result ≡ list_any (is_set v.qual on) (settings_at self.now.rules.parts v.«package» v.part) }
    {
        self.settings(v)
            .iter()
            .any(|setting| setting.requires_value(v.qual, on))
    }

    fn is_named(&self, v: Var, on: bool) -> bool
        ensures { result ≡ list_any (λ s. is_value s.on on) (settings_at self.now.rules.parts v.«package» v.part) }
    {
        self.settings(v).iter().any(|setting| setting.is(on))
    }

    fn settings(&self, v: Var) -> &[PartRule]
        ensures { result.now ≡ settings_at self.now.rules.parts v.«package» v.part }
    {
        let part = PartOf {
            package: v.package,
            part: v.part,
        };
        items_at(&self.rules.parts, &part)
    }

    // Whether the project requires this stanza of every package.
    fn requires_stanza(&self, part: Part) -> bool
        ensures { result ≡ requires_stanza self.now.tests self.now.benchmarks part }
    {
        match part {
            Part::Package | Part::Flag(_) => false,
            Part::Tests => self.tests,
            Part::Benches => self.benchmarks,
        }
    }
}

// The libraries that come with the compiler.
fn is_boot_library(name: &str) -> bool
    ensures { result ≡ is_listed boot_libraries name.now }
{
    matches!(
        name,
        "base" | "ghc-bignum" | "ghc-prim" | "integer-gmp" | "integer-simple" | "template-haskell"
    )
}

fn let_newer(cuts: &mut Cuts, newer: bool)
    ensures { Relaxes newer false (inside cuts.old) (inside cuts.new) }
{
    if newer {
        cuts.relax_upper();
    }
}

fn let_older(cuts: &mut Cuts, older: bool)
    ensures { Relaxes false older (inside cuts.old) (inside cuts.new) }
{
    if older {
        cuts.relax_lower();
    }
}
