// Lookups in a selection: values, flags, instances.
ghost use Rattle.std.specs.Prelude.{◌≡◌, ◌++◌, IfOk, IfSome, OnOk, map, true};
ghost use Rattle.std.specs.Option.{option_copied};
ghost use Rattle.choice_problem.specs.Table.{entry};
ghost use Rattle.choice_problem.specs.Trail.{value_in};
ghost use Rattle.conditionals.specs.Paths.{is_wanted};
ghost use Rattle.conditionals.specs.Value.{each_once};
ghost use Rattle.flatten.specs.Sound.{IsSound};
ghost use Rattle.plan_types.specs.Packages.{package_at};
ghost use Rattle.qualified_goals.specs.declared.variable.Var.{Var};
ghost use Rattle.solver_index.specs.Places.{number};
ghost use Rattle.plan_components.specs.Apart.{are_apart, flags_apart};
ghost use Rattle.plan_components.specs.Chosen.{body_at, chosen_flag, chosen_flags, selection_from, selection_of, condition_holds, is_turned_on, is_value_on};
ghost use Rattle.plan_components.specs.Steps.{value_with};

use crate::chosen::Chosen;
use choice_problem::{Choice, Table};
use conditionals::{Tri, eval};
use plan_types::{
    Body, Cond, Description, Env, FlagDecl, FlagSet, Index, List, NoMemory, Package, Text,
};
use qualified_goals::{Names, Part, Qual, Var};
use solver_index::{flag_number, is_local, number};
use std::alloc::Global;

/// The values of a trail, by variable.
pub fn chosen_values(alloc: Global, trail: &[Choice]) -> Result<Table, NoMemory>
    ensures { IfOk result (λ values. (v : Var) → entry values v ≡ value_in trail.now v) }
{
    let mut values = Table::new(alloc);
    for choice in trail {
        add_choice(&mut values, choice)?;
    }
    Ok(values)
}

// Only the first choice of a variable counts.
fn add_choice(values: &mut Table, choice: &Choice) -> Result<(), NoMemory>
    ensures { OnOk result ((v : Var) → entry values.new v ≡ value_with (entry values.old) choice.now v) }
{
    if values.has(choice.var) {
        return Ok(());
    }
    values.set(choice.var, choice.val)
}

impl<'a> Chosen<'a> {
    /// The choices over a sound index.
    pub fn new(index: &'a Index, names: &'a Names, env: &'a Env, values: &'a Table) -> Chosen<'a>
        requires { IsSound env.now index.now }
        ensures { selection_of result ≡ selection_from index.now names.now env.now (entry values.now) }
    {
        Chosen {
            index,
            names,
            env,
            values,
        }
    }

    pub(crate) fn packages(&self) -> &[Package]
        ensures { result.now ≡ (selection_of self.now).packages }
    {
        self.index.packages.as_slice()
    }

    /// The environment in which conditions are evaluated.
    pub fn env(&self) -> &Env
        ensures { result.now ≡ (selection_of self.now).env }
    {
        self.env
    }

    /// Whether a package is local.
    pub fn is_local(&self, package: u64) -> bool
        ensures { result ≡ (package_at (selection_of self.now).packages «package»).local }
    {
        is_local(self.packages(), package)
    }

    /// The number of a package; one behind the last for an unknown name.
    pub(crate) fn number(&self, name: &Text) -> u64
        ensures { result ≡ number (selection_of self.now).packages (selection_of self.now).names name.now }
    {
        number(self.packages(), self.names, name)
    }

    /// Whether a flag or stanza has a chosen value, and it is on.
    pub(crate) fn is_turned_on(&self, qual: Qual, package: u64, part: Part) -> bool
        ensures { result ≡ is_turned_on (selection_of self.now) qual «package» part }
    {
        is_value_on(
            self.values.get(Var {
                qual,
                package,
                part,
            }),
        )
    }

    /// The flags that a description declares, with their chosen values.
    pub fn flags(
        &self,
        alloc: Global,
        qual: Qual,
        package: u64,
        d: &Description,
    ) -> Result<List<FlagSet>, NoMemory>
        requires { are_apart (map (λ decl. decl.name) d.now.flags) ≡ true }
        ensures flags { IfOk result (λ flags. flags ≡ chosen_flags (selection_of self.now) qual «package» d.now) }
        ensures once { IfOk result (λ flags. each_once flags ≡ true) }
    {
        let mut flags = List::new(alloc);
        self.push_flags(&mut flags, qual, package, d.flags.as_slice())?;
        Ok(flags)
    }

    fn push_flags(
        &self,
        flags: &mut List<FlagSet>,
        qual: Qual,
        package: u64,
        decls: &[FlagDecl],
    ) -> Result<(), NoMemory>
        ensures { OnOk result (flags.new ≡ flags.old ++ map
            (chosen_flag (selection_of self.now) qual «package») decls.now) }
    {
        for decl in decls {
            flags.push(self.flag(qual, package, decl)?)?;
        }
        Ok(())
    }

    fn flag(&self, qual: Qual, package: u64, decl: &FlagDecl) -> Result<FlagSet, NoMemory>
        ensures { IfOk result (λ flag. flag ≡ chosen_flag (selection_of self.now) qual «package» decl.now) }
    {
        let number = flag_number(self.names, &decl.name);
        let on = self.is_turned_on(qual, package, Part::Flag(number));
        let name = decl.name.copy()?;
        Ok(FlagSet { name, on })
    }

    /// Whether a condition is Yes under some flags. `&&` is Yes iff both sides are. The right side is evaluated
    /// first: it most often isn't Yes, since it is the condition of an `elif` or of the innermost branch.
    pub fn condition_holds(&self, flags: &List<FlagSet>, cond: &Cond) -> bool
        requires { each_once flags.now ≡ true }
        ensures { result ≡ condition_holds self.now.env.now flags.now cond.now }
    {
        let mut left = cond;
        while let Cond::And(front, last) = left {
            if !self.condition_holds(flags, last.get()) {
                return false;
            }
            left = front.get();
        }
        self.is_met(flags, left)
    }

    fn is_met(&self, flags: &List<FlagSet>, cond: &Cond) -> bool
        requires { each_once flags.now ≡ true }
        ensures { result ≡ condition_holds self.now.env.now flags.now cond.now }
    {
        is_yes(eval(cond, self.env, flags))
    }

    /// The description or record of the instance that is chosen for a package under a qualifier.
    pub fn body(&self, qual: Qual, package: u64) -> Option<&Body>
        ensures body { option_copied result ≡ body_at (selection_of self.now) qual «package» }
        ensures apart { IfSome result (λ body. flags_apart body.now ≡ true) }
    {
        let value = self.values.get(Var {
            qual,
            package,
            part: Part::Package,
        })?;
        let found = Package::entries_at(self.packages(), package).get(value as usize)?;
        Some(&found.body)
    }
}

fn is_value_on(value: Option<u64>) -> bool
    ensures { result ≡ is_value_on value }
{
    match value {
        Some(value) => value == 1,
        None => false,
    }
}

fn is_yes(value: Tri) -> bool
    ensures { result ≡ is_wanted true value }
{
    match value {
        Tri::Yes => true,
        Tri::No => false,
        Tri::Unknown => false,
    }
}
