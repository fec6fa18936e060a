// The choices of a search, with their values by variable.
ghost use Rattle.std.specs.Prelude.{◌≡◌, ◌++◌, ◌∷◌, [], None, ℕ, filter, is_some, nat_eq, OnOk, OnErr, MatchOption};
ghost use Rattle.qualified_goals.specs.declared.variable.Var.{Var};
ghost use Rattle.keyed_lists.specs.Lists.{items_at};
ghost use Rattle.choice_problem.specs.Table.{entry, with_entry};
ghost use Rattle.choice_problem.specs.Trail.{AreOfDifferentVars, value_in, with_instance, without_instance};
ghost use Rattle.choice_problem.specs.Twins.{is_of_package};

use crate::table::Table;
use crate::{Choice, Var};
use indexmap::IndexMap;
use keyed_lists::{Lists, items_at, pop_at, push_at};
use plan_types::{List, NoMemory, drop_fields};
use qualified_goals::Part;
use std::alloc::Global;
use std::marker::Model;

/// The choices of a search, in the order in which they were made. No two are of one variable.
pub struct Trail {
    choices: List<Choice>,
    values: Table,
    // By the number of the package.
    instances: Lists<u64, Choice>,
}

impl Drop for Trail {
    fn drop(self) {
        drop_fields!(self; choices, values, instances);
    }
}

impl Model for Trail {
    ghost use Rattle.std.specs.Prelude.{List};
    ghost use Rattle.choice_problem.specs.declared.problem.Choice.{Choice};
    ghost use Rattle.choice_problem.specs.Trail.{IsTrail};

    ghost Value = { List Choice };

    ghost view = { λ t. t.choices };

    ghost invariant = { λ t. IsTrail t.choices t.values t.instances };
}

impl Trail {
    /// The trail before any choice.
    pub fn new(alloc: Global) -> Trail
        ensures { result ≡ [] }
    {
        Trail {
            choices: List::new(alloc),
            values: Table::new(alloc),
            instances: IndexMap::new(alloc),
        }
    }

    /// The choices as a list.
    pub fn choices(&self) -> &List<Choice>
        ensures choices { result.now ≡ self.now }
        ensures different { AreOfDifferentVars result.now }
    {
        &self.choices
    }

    /// The choices as a list, without the tables.
    pub fn into_choices(self) -> List<Choice>
        ensures choices { result ≡ self }
        ensures different { AreOfDifferentVars result }
    {
        let Trail {
            choices,
            values: _values,
            instances: _instances,
        } = self;
        choices
    }

    /// The value that was chosen for a variable.
    pub fn value_of(&self, v: Var) -> Option<u64>
        ensures { result ≡ value_in self.now v }
    {
        self.values.get(v)
    }

    /// Whether a value was chosen for a variable.
    pub fn has(&self, v: Var) -> bool
        ensures { result ≡ is_some (value_in self.now v) }
    {
        self.values.has(v)
    }

    /// The choices of a package's instances, under any qualifier.
    pub fn instances_of(&self, package: u64) -> &[Choice]
        ensures { result.now ≡ filter (is_of_package «package») self.now }
    {
        items_at(&self.instances, &package)
    }

    /// Appends a choice of a variable that has no value yet.
    pub fn push(&mut self, alloc: Global, c: Choice) -> Result<(), NoMemory>
        requires { value_in self.old c.var ≡ None }
        ensures ok { OnOk result (self.new ≡ self.old ++ c ∷ []) }
        ensures err { OnErr result (self.new ≡ self.old) }
    {
        self.choices.push(c)?;
        if keep(alloc, &mut self.values, &mut self.instances, c).is_err() {
            self.choices.pop();
            return Err(NoMemory);
        }
        Ok(())
    }

    /// Removes the last choice. It allocates no memory.
    pub fn pop(&mut self) -> Option<Choice>
        ensures { MatchOption result ((self.old ≡ []) × (self.new ≡ [])) (λ c. self.old ≡ self.new ++ c ∷ []) }
    {
        let Some(c) = self.choices.pop() else {
            return None;
        };
        self.values.remove(c.var);
        drop_instance(&mut self.instances, c);
        Some(c)
    }
}

// Adds a choice of a variable that has no value yet to both tables.
fn keep(
    alloc: Global,
    values: &mut Table,
    instances: &mut Lists<u64, Choice>,
    c: Choice,
) -> Result<(), NoMemory>
    requires { entry values.old c.var ≡ None }
    ensures values { OnOk result ((v : Var) → entry values.new v ≡ with_entry c.var c.val (entry values.old) v) }
    ensures instances { OnOk result ((n : ℕ) → items_at nat_eq instances.new n
        ≡ with_instance c n (items_at nat_eq instances.old n)) }
    ensures no_value { OnErr result ((v : Var) → entry values.new v ≡ entry values.old v) }
    ensures no_instance { OnErr result ((n : ℕ) → items_at nat_eq instances.new n ≡ items_at nat_eq instances.old n) }
{
    values.set(c.var, c.val)?;
    if add_instance(alloc, instances, c).is_err() {
        values.remove(c.var);
        return Err(NoMemory);
    }
    Ok(())
}

fn add_instance(
    alloc: Global,
    instances: &mut Lists<u64, Choice>,
    c: Choice,
) -> Result<(), NoMemory>
    ensures ok { OnOk result ((n : ℕ) → items_at nat_eq instances.new n
        ≡ with_instance c n (items_at nat_eq instances.old n)) }
    ensures err { OnErr result ((n : ℕ) → items_at nat_eq instances.new n ≡ items_at nat_eq instances.old n) }
{
    match c.var.part {
        Part::Package => push_at(alloc, instances, c.var.package, c),
        Part::Flag(_) | Part::Tests | Part::Benches => Ok(()),
    }
}

fn drop_instance(instances: &mut Lists<u64, Choice>, c: Choice)
    ensures { (n : ℕ) → items_at nat_eq instances.new n ≡ without_instance c n (items_at nat_eq instances.old n) }
{
    match c.var.part {
        Part::Package => pop_at(instances, &c.var.package),
        Part::Flag(_) | Part::Tests | Part::Benches => {}
    }
}
