// Blame: what a failure reports besides its conflict set.
ghost use Rattle.std.specs.Prelude.{◌≡◌, IfOk};
ghost use Rattle.choice_problem.specs.Answer.{guided_answer, outcome_of};
ghost use Rattle.choice_problem.specs.General.{general};
ghost use Rattle.conflict_shrink.specs.Restricted.{CanBeShrunk};
ghost use Rattle.conflict_shrink.specs.Shrinking.{shrinking};
ghost use Rattle.plan_search.specs.Blame.{IsBlameOfSet, MeansBlame, blame_at, blame_of};
ghost use Rattle.plan_search.specs.Finding.{guide_of};
ghost use Rattle.plan_search.specs.declared.search.Picking.{Picking};

use choice_problem::{Choices, ConflictSet, Limit, Outcome, Steps};
use conflict_shrink::{ShrinkFault, Shrunk, failed_sets_can_be_shrunk, shrink};
use plan_types::NoMemory;
use std::alloc::Global;
use std::sync::ledger::Ledger;

/// What a failure reports besides its conflict set.
#[derive(Debug, Drop)]
pub enum Blame {
    /// Shrinking wasn't asked for, or the search didn't fail.
    Unasked,
    /// A minimal part of the conflict set that still admits no assignment.
    Shrunk(Shrunk),
    /// Shrinking reached the limit, with this many points exhausted.
    TooLong(u64),
}

/// The blame of a search's outcome. Only a failed search with `minimize` shrinks its set.
pub(crate) fn blame_of<C: Choices, L: Ledger>(
    alloc: Global,
    minimize: bool,
    problem: &C,
    limit: Limit,
    outcome: &Outcome,
    steps: &mut Steps<L>,
) -> Result<Blame, NoMemory>
    requires { (picking : Picking) × (outcome.now
        ≡ outcome_of (guided_answer (guide_of picking) (C.problem problem.now) limit)) }
    ensures blame { IfOk result (λ blame. blame ≡ blame_of minimize (C.problem problem.now) limit outcome.now) }
    ensures means { IfOk result (MeansBlame minimize (general (C.problem problem.now)) limit outcome.now) }
{
    failed_sets_can_be_shrunk();
    match outcome {
        Outcome::NoPlan { set, .. } => {
            if minimize {
                part_of(alloc, problem, set, limit, steps)
            } else {
                Ok(Blame::Unasked)
            }
        }
        Outcome::Found { .. } => Ok(Blame::Unasked),
        Outcome::GaveUp { .. } => Ok(Blame::Unasked),
    }
}

// A minimal part of a set, within a budget of exhausted points.
fn part_of<C: Choices, L: Ledger>(
    alloc: Global,
    problem: &C,
    set: &ConflictSet,
    budget: Limit,
    steps: &mut Steps<L>,
) -> Result<Blame, NoMemory>
    requires { CanBeShrunk (C.problem problem.now) set.now }
    ensures blame { IfOk result (λ blame. blame ≡ blame_at (shrinking (C.problem problem.now) set.now budget).ended) }
    ensures means { IfOk result (IsBlameOfSet (general (C.problem problem.now)) budget set.now) }
{
    match shrink(alloc, problem, set, budget, steps) {
        Ok(shrunk) => Ok(Blame::Shrunk(shrunk)),
        Err(ShrinkFault::TooLong { spent }) => Ok(Blame::TooLong(spent)),
        Err(ShrinkFault::NoMemory) => Err(NoMemory),
    }
}
