// The restriction of a problem to a set of variables.
ghost use Rattle.std.specs.Prelude.{◌≡◌, IsTrue, IfOk, filter};
ghost use Rattle.std.specs.List.{list_all};
ghost use Rattle.choice_problem.specs.ConflictSet.{has};
ghost use Rattle.conflict_shrink.specs.Restricted.{restricted, are_known, stays_in};

use choice_problem::{Choice, Choices, ConflictSet, Demand, Trail, Var};
use plan_types::{List, NoMemory};
use std::alloc::Global;

/// A problem restricted to a set: it has the demands whose target and whole condition are in the set.
#[derive(Drop)]
pub struct Restricted<C: Choices> {
    choices: C,
    set: ConflictSet,
    ghost known: { IsTrue (are_known (C.problem choices) set) },
}

impl<C: Choices> Restricted<C> {
    /// The problem restricted to these variables.
    pub fn new(choices: C, set: ConflictSet) -> Restricted<C>
        requires { IsTrue (are_known (C.problem choices) set) }
        ensures problem { ⟦<Restricted<C> as Choices>⟧.problem result ≡ restricted (C.problem choices) set }
        ensures set { result.set ≡ set }
    {
        Restricted { choices, set }
    }
}

impl<C: Choices + Drop> Restricted<C> {
    /// The set alone.
    pub(crate) fn into_set(self) -> ConflictSet
        ensures { result ≡ self.set }
    {
        self.set
    }
}

fn are_in(set: &ConflictSet, when: &[Choice]) -> bool
    ensures { result ≡ list_all (λ c. has set.now c.var) when.now }
{
    when.iter().all(|c| set.has(c.var))
}

fn stays_in(set: &ConflictSet, demand: &Demand) -> bool
    ensures { result ≡ stays_in set.now demand.now }
{
    set.has(demand.target) && are_in(set, demand.when.as_slice())
}

fn staying(set: &ConflictSet, demands: List<Demand>) -> List<Demand>
    ensures { result ≡ filter (stays_in set.now) demands }
{
    let mut demands = demands.into_vec();
    demands.retain(|demand| stays_in(set, demand));
    List::from_vec(demands)
}

impl<C: Choices> Choices for Restricted<C> {
    ghost use Rattle.conflict_shrink.specs.Restricted.{restricted};
    ghost use Rattle.conflict_shrink.specs.RestrictedLaws.{restricted_lawful};

    ghost problem = { λ r. restricted (C.problem r.choices) r.set };

    ghost lawful = { λ r. restricted_lawful (C.problem r.choices) r.set r.known (C.lawful r.choices) };

    fn known(&self, v: Var) -> bool {
        self.set.has(v)
    }

    fn domain(&self, v: Var) -> u64 {
        self.choices.domain(v)
    }

    fn roots(&self, alloc: Global) -> Result<List<Demand>, NoMemory> {
        Ok(staying(&self.set, self.choices.roots(alloc)?))
    }

    fn order(&self, alloc: Global, v: Var, trail: &Trail) -> Result<List<u64>, NoMemory> {
        self.choices.order(alloc, v, trail)
    }

    fn barred(&self, c: Choice) -> bool {
        self.choices.barred(c)
    }

    fn demands(&self, alloc: Global, owner: Choice) -> Result<List<Demand>, NoMemory> {
        Ok(staying(&self.set, self.choices.demands(alloc, owner)?))
    }
}
