// Scores of variables by conflict sets, and the open variable with the greatest one.
ghost use Rattle.std.specs.Prelude.{◌≡◌, ◌≤◌, ℕ, List, [], IsTrue, OnOk, OnErr, find, length, map, take};
ghost use Rattle.std.specs.List.Sorted.{IsStrictlySortedBy};
ghost use Rattle.qualified_goals.specs.declared.variable.Var.{Var};
ghost use Rattle.choice_problem.specs.declared.problem.Choice.{Choice};
ghost use Rattle.choice_problem.specs.Problem.{Problem, Lawful};
ghost use Rattle.choice_problem.specs.Active.{is_open};
ghost use Rattle.choice_problem.specs.ConflictSet.{is_rising};
ghost use Rattle.choice_problem.specs.Guide as spec;
ghost use Rattle.choice_problem.specs.Guides.{most-met-is-guide};
ghost use Rattle.validation.specs.View.{Represents};
ghost use Rattle.count_search.specs.Ranks.{rank_cmp, AreBetween, AreScored, raised, raised_all};

use crate::ranks::{Ranks, rank_of};
use crate::records::Records;
use backjump::Guide;
use choice_problem::{ConflictSet, Trail, Var};
use plan_types::{NoMemory, drop_fields};
use std::alloc::Global;
use validation::State;

/// Picks the open variable with the greatest score, of equals the least. A score counts the conflict sets so far.
pub struct Counting {
    // The score of each variable, and whether it is chosen. A variable that isn't there was in no set.
    records: Records,
    // The ranks of the variables that were in a set and aren't chosen.
    ranks: Ranks,
}

impl Drop for Counting {
    fn drop(self) {
        drop_fields!(self; records, ranks);
    }
}

impl Counting {
    /// A guide without conflict sets.
    pub fn new(alloc: Global) -> Counting
        ensures { AreScored result.records result.ranks (spec.score []) [] }
    {
        Counting {
            records: Records::new(alloc),
            ranks: Ranks::new(alloc),
        }
    }
}

// A set is added in two steps. The first allocates all memory: each of its variables gets a record, and its next rank
// besides its old one, unless it is chosen. The second raises the scores and removes the old ranks.
impl Counting {
    // The first step for one variable.
    fn prepare(&mut self, v: Var, trail: &Trail) -> Result<(), NoMemory>
        ensures ok { OnOk result ((scores next : Var → ℕ) → next v ≡ scores v
            → AreBetween self.old.records self.old.ranks scores next trail.now
            → AreBetween self.new.records self.new.ranks scores (raised v next) trail.now) }
        ensures err { OnErr result ((scores next : Var → ℕ)
            → AreBetween self.old.records self.old.ranks scores next trail.now
            → AreBetween self.new.records self.new.ranks scores next trail.now) }
    {
        let met = self.records.get_or_add(v, trail)?;
        if met.chosen {
            return Ok(());
        }
        self.ranks.add(rank_of(met.sets.saturating_add(1), v))
    }

    // Undoes the first step for one variable.
    fn withdraw(&mut self, v: Var)
        ensures { (scores next : Var → ℕ) (trail : List Choice) → next v ≡ scores v
            → AreBetween self.old.records self.old.ranks scores (raised v next) trail
            → AreBetween self.new.records self.new.ranks scores next trail }
    {
        let Some(met) = self.records.get(v) else {
            return;
        };
        if met.sets == u64::MAX {
            return;
        }
        self.ranks.remove(rank_of(met.sets + 1, v));
    }

    // The second step for one variable.
    fn raise(&mut self, v: Var)
        ensures { (scores next : Var → ℕ) (trail : List Choice) → next v ≡ raised v scores v
            → AreBetween self.old.records self.old.ranks scores next trail
            → AreBetween self.new.records self.new.ranks (raised v scores) next trail }
    {
        let Some(met) = self.records.count_one(v) else {
            return;
        };
        // A chosen variable has no rank.
        if met.chosen {
            return;
        }
        if met.sets == u64::MAX {
            return;
        }
        self.ranks.remove(rank_of(met.sets, v));
    }
}

impl Counting {
    // The first step for the variables of a set. It is undone when out of memory.
    fn prepare_all(&mut self, vars: &[Var], trail: &Trail) -> Result<(), NoMemory>
        requires { IsTrue (is_rising vars.now) }
        ensures ok { OnOk result ((scores : Var → ℕ)
            → AreScored self.old.records self.old.ranks scores trail.now
            → AreBetween self.new.records self.new.ranks scores (raised_all vars.now scores) trail.now) }
        ensures err { OnErr result ((scores : Var → ℕ)
            → AreScored self.old.records self.old.ranks scores trail.now
            → AreScored self.new.records self.new.ranks scores trail.now) }
    {
        for place in 0..vars.len() {
            let v = vars[place];
            if self.prepare(v, trail).is_err() {
                self.withdraw_first(vars, place);
                return Err(NoMemory);
            }
        }
        Ok(())
    }

    // Undoes the first step for the first `count` variables of a set.
    fn withdraw_first(&mut self, vars: &[Var], count: usize)
        requires rising { IsTrue (is_rising vars.now) }
        requires within { count ≤ length vars.now }
        ensures { (scores : Var → ℕ) (trail : List Choice)
            → AreBetween self.old.records self.old.ranks scores (raised_all (take count vars.now) scores)
            trail
            → AreScored self.new.records self.new.ranks scores trail }
    {
        let mut left = count;
        while left > 0 {
            left -= 1;
            self.withdraw(vars[left]);
        }
    }

    // The second step for the variables of a set.
    fn raise_all(&mut self, vars: &[Var])
        requires { IsTrue (is_rising vars.now) }
        ensures { (scores : Var → ℕ) (trail : List Choice)
            → AreBetween self.old.records self.old.ranks scores (raised_all vars.now scores) trail
            → AreScored self.new.records self.new.ranks (raised_all vars.now scores) trail }
    {
        for place in 0..vars.len() {
            self.raise(vars[place]);
        }
    }
}

impl Guide for Counting {
    ghost picks = { spec.most_met };

    ghost recalls = { λ guide met trail. AreScored guide.records guide.ranks (spec.score met) trail };

    fn pick(&self, state: &State) -> Option<Var> {
        match self.ranks.first_open(state) {
            Some(rank) => Some(rank.var),
            None => state.least(),
        }
    }

    fn learn(&mut self, _: Global, set: &ConflictSet, trail: &Trail) -> Result<(), NoMemory> {
        let vars = set.vars();
        self.prepare_all(vars, trail)?;
        self.raise_all(vars);
        Ok(())
    }

    fn chosen(&mut self, v: Var) {
        let Some(met) = self.records.mark(v, true) else {
            return;
        };
        self.ranks.remove(rank_of(met.sets, v));
    }

    fn taken_back(&mut self, v: Var) -> Result<(), NoMemory> {
        let Some(met) = self.records.get(v) else {
            return Ok(());
        };
        if met.sets == 0 {
            let _ = self.records.mark(v, false);
            return Ok(());
        }
        self.ranks.add(rank_of(met.sets, v))?;
        let _ = self.records.mark(v, false);
        Ok(())
    }

    ghost is_guide = { most-met-is-guide };
}
