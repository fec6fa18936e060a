// The search whose guide counts conflicts.
ghost use Rattle.std.specs.Prelude.{◌≡◌, ◌+◌, ◌≤◌, IfOk, OnOk, OnErr};
ghost use Rattle.choice_problem.specs.Guide.{most_met};
ghost use Rattle.choice_problem.specs.Answer.{guided_answer, outcome_of};
ghost use Rattle.count_search.specs.Meaning.{MeansCounted};

use crate::Counting;
use backjump::guided_search;
use choice_problem::{Choices, Limit, Outcome, Steps};
use plan_types::NoMemory;
use std::alloc::Global;
use std::sync::ledger::Ledger;

/// Searches a problem by the open variables that were in the most conflict sets so far.
/// `steps` counts each try.
pub fn count_search<C: Choices, L: Ledger>(
    alloc: Global,
    choices: &C,
    limit: Limit,
    steps: &mut Steps<L>,
) -> Result<Outcome, NoMemory>
    ensures outcome { IfOk result (λ outcome.
        outcome ≡ outcome_of (guided_answer most_met (C.problem choices.now) limit)) }
    ensures means { IfOk result (MeansCounted (C.problem choices.now) limit) }
    ensures ticks { OnOk result
        (steps.new ≡ steps.old + (guided_answer most_met (C.problem choices.now) limit).past.counts.visited) }
    ensures most { OnErr result
        (steps.new ≤ steps.old + (guided_answer most_met (C.problem choices.now) limit).past.counts.visited) }
{
    guided_search(alloc, choices, Counting::new(alloc), limit, steps)
}
