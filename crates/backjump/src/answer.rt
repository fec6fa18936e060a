// The search of a problem.
ghost use Rattle.std.specs.Prelude.{◌≡◌, ◌+◌, ◌≤◌, [], IfOk, OnOk, OnErr};
ghost use Rattle.choice_problem.specs.Answer.{answer_of, guided_answer, outcome_of};

use crate::walk::{Turn, Walk, WalkStep};
use crate::{Guide, Least};
use choice_problem::{Choices, Limit, Outcome, Steps};
use plan_types::NoMemory;
use std::alloc::Global;
use std::sync::ledger::Ledger;

/// Searches a problem by the least open variables, with their values in order. `steps` counts each try.
pub fn search<C: Choices, L: Ledger>(
    alloc: Global,
    choices: &C,
    limit: Limit,
    steps: &mut Steps<L>,
) -> Result<Outcome, NoMemory>
    ensures outcome { IfOk result (λ outcome. outcome ≡ outcome_of (answer_of (C.problem choices.now) limit)) }
    ensures ticks { OnOk result
        (steps.new ≡ steps.old + (answer_of (C.problem choices.now) limit).past.counts.visited) }
    ensures most { OnErr result
        (steps.new ≤ steps.old + (answer_of (C.problem choices.now) limit).past.counts.visited) }
{
    guided_search(alloc, choices, Least, limit, steps)
}

/// Searches a problem by the variables that the guide picks, with their values in order. The guide recalls no conflict
/// sets and no choices at the start.
pub fn guided_search<C: Choices, G: Guide + Drop, L: Ledger>(
    alloc: Global,
    choices: &C,
    guide: G,
    limit: Limit,
    steps: &mut Steps<L>,
) -> Result<Outcome, NoMemory>
    requires { G.recalls guide [] [] }
    ensures outcome { IfOk result (λ outcome.
        outcome ≡ outcome_of (guided_answer G.picks (C.problem choices.now) limit)) }
    ensures ticks { OnOk result
        (steps.new ≡ steps.old + (guided_answer G.picks (C.problem choices.now) limit).past.counts.visited) }
    ensures most { OnErr result
        (steps.new ≤ steps.old + (guided_answer G.picks (C.problem choices.now) limit).past.counts.visited) }
{
    let mut walk = Walk::start(alloc, choices, guide)?;
    let mut turn = Turn::Look;
    loop {
        match walk.advance(alloc, choices, limit, steps, turn)? {
            WalkStep::On(next) => turn = next,
            WalkStep::Done(end) => return Ok(walk.outcome(end)),
        }
    }
}
