// Sets of variables that mostly stay small.
ghost use Rattle.std.specs.Prelude.{◌≡◌, ◌<◌, ◌++◌, [], ◌∷◌, Some, IfOk, IfSome, OnOk, length, drop, slice_get};
ghost use Rattle.choice_problem.specs.ConflictSet.{has};
ghost use Rattle.demand_cycles.specs.VarSet.{IsIndexOf, with_key, with_keys};

use choice_problem::Var;
use indexmap::IndexSet;
use plan_types::{NoMemory, drop_fields};
use std::alloc::Global;
use std::marker::Model;

/// The most variables after the first that a set searches one by one.
const SMALL: usize = 16;

/// Distinct variables in the order in which they were added. A set begins with one, for which it allocates nothing.
/// A set that has grown large has an index of the others.
pub(crate) struct VarSet {
    first: Var,
    others: Vec<Var>,
    index: Option<Box<IndexSet<Var>>>,
}

impl Drop for VarSet {
    fn drop(self) {
        drop_fields!(self; first, others, index);
    }
}

impl Model for VarSet {
    ghost use Rattle.std.specs.Prelude.{List, ◌∷◌, IfSome};
    ghost use Rattle.qualified_goals.specs.declared.variable.Var.{Var};
    ghost use Rattle.demand_cycles.specs.VarSet.{IsIndexOf};

    ghost Value = { List Var };

    ghost view = { λ s. s.first ∷ s.others.items };

    ghost invariant = { λ s. IfSome s.index (λ index. IsIndexOf s.others.items index.value.keys) };
}

impl VarSet {
    pub(crate) fn of(alloc: Global, first: Var) -> VarSet
        ensures { result ≡ first ∷ [] }
    {
        VarSet {
            first,
            others: Vec::new(alloc),
            index: None,
        }
    }

    /// Keeps one variable alone, and the memory.
    pub(crate) fn begin(&mut self, first: Var)
        ensures { self.new ≡ first ∷ [] }
    {
        self.first = first;
        self.others.truncate(0);
        self.index = None;
    }

    pub(crate) fn len(&self) -> usize
        ensures { result ≡ length self.now }
    {
        self.others.len() + 1
    }

    pub(crate) fn at(&self, place: usize) -> Var
        requires { place < length self.now }
        ensures { slice_get self.now place ≡ Some result }
    {
        if place == 0 {
            self.first
        } else {
            self.others[place - 1]
        }
    }

    pub(crate) fn holds(&self, v: Var) -> bool
        ensures { result ≡ has self.now v }
    {
        self.first == v || self.is_among_others(v)
    }

    fn is_among_others(&self, v: Var) -> bool
        ensures { result ≡ has (drop 1 self.now) v }
    {
        match &self.index {
            Some(index) => index.contains(&v),
            None => self.others.as_slice().contains(&v),
        }
    }

    /// Adds a variable, unless it is in the set.
    pub(crate) fn add(&mut self, v: Var) -> Result<(), NoMemory>
        ensures { OnOk result (self.new ≡ with_key self.old v) }
    {
        if self.holds(v) {
            return Ok(());
        }
        self.push(v)
    }

    pub(crate) fn add_all(&mut self, vars: &[Var]) -> Result<(), NoMemory>
        ensures { OnOk result (self.new ≡ with_keys self.old vars.now) }
    {
        for v in vars {
            self.add(*v)?;
        }
        Ok(())
    }

    fn push(&mut self, v: Var) -> Result<(), NoMemory>
        ensures { OnOk result (self.new ≡ self.old ++ v ∷ []) }
    {
        let alloc = *self.others.allocator();
        let index = grown(alloc, self.index.take(), self.others.as_slice(), v)?;
        self.others.push(v)?;
        self.index = index;
        Ok(())
    }
}

// The index of some variables and one more, from the index of these variables. Few variables have none.
fn grown(
    alloc: Global,
    index: Option<Box<IndexSet<Var>>>,
    vars: &[Var],
    v: Var,
) -> Result<Option<Box<IndexSet<Var>>>, NoMemory>
    requires { IfSome index (λ index. IsIndexOf vars.now index.value.keys) }
    ensures { IfOk result (λ grown. IfSome grown (λ index. IsIndexOf (vars.now ++ v ∷ []) index.value.keys)) }
{
    let mut index = match index {
        Some(index) => index,
        None if vars.len() < SMALL => return Ok(None),
        None => index_of(alloc, vars)?,
    };
    index.insert(v)?;
    Ok(Some(index))
}

fn index_of(alloc: Global, vars: &[Var]) -> Result<Box<IndexSet<Var>>, NoMemory>
    ensures { IfOk result (λ index. index.value.keys ≡ with_keys [] vars.now) }
{
    let mut keys = IndexSet::new(alloc);
    add_keys(&mut keys, vars)?;
    let index = Box::new(alloc, keys)?;
    Ok(index)
}

fn add_keys(keys: &mut IndexSet<Var>, vars: &[Var]) -> Result<(), NoMemory>
    ensures { OnOk result (keys.new.keys ≡ with_keys keys.old.keys vars.now) }
{
    for v in vars {
        keys.insert(*v)?;
    }
    Ok(())
}
