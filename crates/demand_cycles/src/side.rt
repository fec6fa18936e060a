// A search along the edges from one variable, or against them.
ghost use Rattle.std.specs.Prelude.{◌≡◌, ◌+◌, ◌<◌, ◌≤◌, ◌||◌, IsTrue, List, Some, OnOk, length, slice_get};
ghost use Rattle.choice_problem.specs.ConflictSet.{has};
ghost use Rattle.choice_problem.specs.Conflict.{Edge};
ghost use Rattle.demand_cycles.specs.Side.{IsSide, are_apart, is_seeking};
ghost use Rattle.demand_cycles.specs.VarSet.{with_keys};

use crate::var_set::VarSet;
use choice_problem::{Var, is_same};
use plan_types::{NoMemory, drop_fields};
use std::alloc::Global;

// The most variables that a search has found while it is near its end.
const NEAR: usize = 8;

/// A search from `end`: the variables found so far. The edges at those before `place` are followed already.
pub(crate) struct Side {
    pub(crate) end: Var,
    pub(crate) found: VarSet,
    pub(crate) place: usize,
}

impl Drop for Side {
    fn drop(self) {
        drop_fields!(self; end, found, place);
    }
}

impl Side {
    pub(crate) fn new(alloc: Global, end: Var) -> Side
        ensures end { result.end ≡ end }
        ensures begun { (edges : List Edge) → IsSide edges result }
    {
        Side {
            end,
            found: VarSet::of(alloc, end),
            place: 0,
        }
    }

    /// Starts again from another end. A search from the same end goes on.
    pub(crate) fn begin(&mut self, end: Var)
        ensures end { self.new.end ≡ end }
        ensures side { (edges : List Edge) → IsSide edges self.old → IsSide edges self.new }
    {
        if is_same(self.end, end) {
            return;
        }
        self.end = end;
        self.found.begin(end);
        self.place = 0;
    }

    /// Whether it is the search from this end, and has found all that it can.
    pub(crate) fn is_done(&self, end: Var) -> bool
        ensures end { IsTrue result → self.now.end ≡ end }
        ensures done { IsTrue result → length self.now.found ≤ self.now.place }
    {
        self.place >= self.found.len() && is_same(self.end, end)
    }

    pub(crate) fn holds(&self, v: Var) -> bool
        ensures { result ≡ has self.now.found v }
    {
        self.found.holds(v)
    }

    /// The next variable whose edges are followed.
    pub(crate) fn next(&self) -> Var
        requires { self.now.place < length self.now.found }
        ensures { slice_get self.now.found self.now.place ≡ Some result }
    {
        self.found.at(self.place)
    }

    /// Adds the variables that the next variable's edges lead to.
    pub(crate) fn add(&mut self, vars: &[Var]) -> Result<(), NoMemory>
        requires { self.old.place < length self.old.found }
        ensures end { OnOk result (self.new.end ≡ self.old.end) }
        ensures found { OnOk result (self.new.found ≡ with_keys self.old.found vars.now) }
        ensures place { OnOk result (self.new.place ≡ self.old.place + 1) }
    {
        prove!(self.place < self.found.len());
        self.found.add_all(vars)?;
        self.place += 1;
        Ok(())
    }
}

/// Whether a variable isn't found yet, but may still be.
pub(crate) fn is_seeking(side: &Side, v: Var) -> bool
    ensures { result ≡ is_seeking side.now v }
{
    side.place < side.found.len() && !side.holds(v)
}

/// Whether a variable isn't found yet, but may still be, and few are found.
pub(crate) fn is_near(side: &Side, v: Var) -> bool
    ensures goes_on { IsTrue result → side.now.place < length side.now.found }
    ensures few { IsTrue result → length side.now.found ≤ 8 }
{
    side.found.len() <= NEAR && is_seeking(side, v)
}

/// Whether both searches may still find the other's end.
pub(crate) fn are_apart(ahead: &Side, back: &Side) -> bool
    ensures { result ≡ are_apart ahead.now back.now }
{
    is_seeking(ahead, back.end) && is_seeking(back, ahead.end)
}

/// Whether either search has found the other's end.
pub(crate) fn have_met(ahead: &Side, back: &Side) -> bool
    ensures { result ≡ has ahead.now.found back.now.end || has back.now.found ahead.now.end }
{
    ahead.holds(back.end) || back.holds(ahead.end)
}
