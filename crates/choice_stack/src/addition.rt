// The additions of a choice to a stack.
ghost use Rattle.std.specs.Prelude.{◌≡◌, None, IfOk};
ghost use Rattle.choice_problem.specs.Trail.{value_in};
ghost use Rattle.choice_stack.specs.Addition.{IsAddition};

use crate::checks::turned_among;
use crate::stack::Stack;
use choice_problem::{Choice, Demand};
use plan_types::{List, NoMemory};
use std::alloc::Global;

/// A choice of an open variable, with the demands that it owns, and the places of the demands that become Yes with it.
#[derive(Drop)]
pub struct Addition {
    pub choice: Choice,
    pub demands: List<Demand>,
    /// Among the listed demands.
    pub woken: Vec<usize>,
    /// Among those of the choice.
    pub fresh: Vec<usize>,
}

impl Addition {
    /// The addition of a choice to a stack, with the demands that it owns.
    pub fn of(
        alloc: Global,
        stack: &Stack,
        choice: Choice,
        demands: List<Demand>,
    ) -> Result<Addition, NoMemory>
        requires { value_in stack.now.trail choice.var ≡ None }
        ensures choice { IfOk result (λ addition. addition.choice ≡ choice) }
        ensures demands { IfOk result (λ addition. addition.demands ≡ demands) }
        ensures turned { IfOk result (IsAddition stack.now) }
    {
        let trail = stack.values_with(choice);
        let woken = stack.turned(alloc, &trail, choice.var)?;
        let fresh = turned_among(alloc, demands.as_slice(), &trail, choice.var)?;
        Ok(Addition {
            choice,
            demands,
            woken,
            fresh,
        })
    }
}
