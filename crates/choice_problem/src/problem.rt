// Problems as a trait, with their choices and demands.
ghost use Rattle.std.specs.Prelude.{◌≡◌, ◌++◌, IfOk, IsTrue, OnOk, All};
ghost use Rattle.choice_problem.specs.Conflict.{named_by};
ghost use Rattle.choice_problem.specs.Problem.{Problem, IsChoice, Lawful};

use crate::{Trail, Var};
use plan_types::{List, NoMemory};
use std::alloc::Global;

/// A variable with one of its values.
#[derive(Clone, Copy, Debug, Drop, PartialEq, Eq)]
pub struct Choice {
    pub var: Var,
    pub val: u64,
}

/// Once all choices of `when` are made, the target must have an allowed value. The first choice
/// of `when` is the owner; a root has none.
#[derive(Debug, Drop)]
pub struct Demand {
    pub when: List<Choice>,
    pub target: Var,
    pub allowed: List<u64>,
}

/// Appends the variables that a demand names: its target, then those of its condition.
pub fn push_named(named: &mut Vec<Var>, demand: &Demand) -> Result<(), NoMemory>
    ensures { OnOk result (named.new.items ≡ named.old.items ++ named_by demand.now) }
{
    named.push(demand.target)?;
    for c in demand.when.as_slice() {
        named.push(c.var)?;
    }
    Ok(())
}

/// A problem of choices. Each method computes the function of that name in `problem`.
pub trait Choices {
    ghost problem: { Self → Problem };

    /// Whether the problem has this variable.
    fn known(&self, v: Var) -> bool
        ensures { result ≡ (problem self.now).known v };

    /// How many values a variable has. They are numbered from 0.
    fn domain(&self, v: Var) -> u64
        requires { IsTrue ((problem self.now).known v) }
        ensures { result ≡ (problem self.now).domain v };

    /// The demands without a condition.
    fn roots(&self, alloc: Global) -> Result<List<Demand>, NoMemory>
        ensures { IfOk result (λ found. found ≡ (problem self.now).roots) };

    /// The values of a variable after the choices of a trail, the best first.
    fn order(&self, alloc: Global, v: Var, trail: &Trail) -> Result<List<u64>, NoMemory>
        requires variable { IsTrue ((problem self.now).known v) }
        requires choices { All (IsChoice (problem self.now)) trail.now }
        ensures { IfOk result (λ found. found ≡ (problem self.now).order v trail.now) };

    /// Whether the choice is barred, whatever else is chosen.
    fn barred(&self, c: Choice) -> bool
        requires { IsChoice (problem self.now) c }
        ensures { result ≡ (problem self.now).barred c };

    /// The demands that a choice owns.
    fn demands(&self, alloc: Global, owner: Choice) -> Result<List<Demand>, NoMemory>
        requires { IsChoice (problem self.now) owner }
        ensures { IfOk result (λ found. found ≡ (problem self.now).demands owner) };

    ghost lawful: { (choices : Self) → Lawful (problem choices) };
}

impl<C: Choices> Choices for &C {
    ghost problem = { λ choices. C.problem choices.now };

    ghost lawful = { λ choices. C.lawful choices.now };

    fn known(&self, v: Var) -> bool {
        (**self).known(v)
    }

    fn domain(&self, v: Var) -> u64 {
        (**self).domain(v)
    }

    fn roots(&self, alloc: Global) -> Result<List<Demand>, NoMemory> {
        (**self).roots(alloc)
    }

    fn order(&self, alloc: Global, v: Var, trail: &Trail) -> Result<List<u64>, NoMemory> {
        (**self).order(alloc, v, trail)
    }

    fn barred(&self, c: Choice) -> bool {
        (**self).barred(c)
    }

    fn demands(&self, alloc: Global, owner: Choice) -> Result<List<Demand>, NoMemory> {
        (**self).demands(alloc, owner)
    }
}
