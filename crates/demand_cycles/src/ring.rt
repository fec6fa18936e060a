// The cycles through one variable.
ghost use Rattle.std.specs.Prelude.{◌≡◌};
ghost use Rattle.demand_cycles.specs.Ring.{any_closes, closes};

use crate::var_set::VarSet;
use choice_problem::Var;
use plan_types::drop_fields;

/// What a variable leads to, and what leads to it. An edge lies on a cycle through the variable iff the variable leads
/// to the start of the edge, and the end of the edge to the variable.
pub(crate) struct Ring {
    pub(crate) ahead: VarSet,
    pub(crate) back: VarSet,
}

impl Drop for Ring {
    fn drop(self) {
        drop_fields!(self; ahead, back);
    }
}

impl Ring {
    pub(crate) fn closes(&self, from: Var, to: Var) -> bool
        ensures { result ≡ closes self.now from to }
    {
        self.ahead.holds(from) && self.back.holds(to)
    }
}

/// Whether an edge lies on a cycle of one of the rings.
pub(crate) fn any_closes(rings: &[Ring], from: Var, to: Var) -> bool
    ensures { result ≡ any_closes rings.now from to }
{
    rings.iter().any(|ring| ring.closes(from, to))
}
