// The search over the problem of an index and settings.
ghost use Rattle.std.specs.Prelude.{◌≡◌, ◌<◌, IfOk, true};
ghost use Rattle.std.specs.List.{list_all};
ghost use Rattle.flatten.specs.Sound.{IsSound, has_package};
ghost use Rattle.choice_problem.specs.Answer.{guided_answer, outcome_of};
ghost use Rattle.choice_problem.specs.General.{general};
ghost use Rattle.plan_search.specs.Blame.{MeansBlame, blame_of};
ghost use Rattle.plan_search.specs.Finding.{IsFindingOf, guide_of};
ghost use Rattle.plan_search.specs.Meaning.{Means};

use crate::blame::{Blame, blame_of};
use crate::laws::what_is_found_is_right;
use backjump::search;
use cabal_problem::{CabalProblem, valid_as_whole};
use choice_problem::{Choices, Limit, Outcome, Steps};
use count_search::count_search;
use plan_types::{Index, NoMemory, Settings, drop_fields};
use qualified_goals::Names;
use std::alloc::Global;
use std::marker::Brand;
use std::sync::ledger::{Blank, Ledger};

/// How a search picks its next variable.
#[derive(Clone, Copy, Debug, PartialEq, Eq)]
pub enum Picking {
    /// The least open variable, in goal order.
    Least,
    /// The open variable in the most conflict sets so far; the least of several.
    MostMet,
}

/// The outcome of a search, the names behind its numbers, and the blame of a failure.
#[derive(Debug)]
pub struct Finding {
    pub names: Names,
    pub outcome: Outcome,
    pub blame: Blame,
}

impl Drop for Finding {
    fn drop(self) {
        drop_fields!(self; names, outcome, blame);
    }
}

/// Searches for a plan over a sound index that has each extra package. With `minimize`, a failure's conflict set is
/// shrunk, with the limit counted anew.
pub fn find_plan(
    alloc: Global,
    picking: Picking,
    minimize: bool,
    index: &Index,
    settings: &Settings,
) -> Result<Finding, NoMemory>
    requires sound { IsSound settings.now.env index.now }
    requires there { list_all (λ named. has_package index.now named.name) settings.now.project.extra ≡ true }
    ensures finding { IfOk result (IsFindingOf picking minimize index.now settings.now) }
    ensures means { IfOk result (Means picking minimize index.now settings.now) }
{
    what_is_found_is_right();
    valid_as_whole();
    let problem = CabalProblem::new(alloc, index, settings)?;
    let (outcome, blame) = searched::<CabalProblem<'_>, Brand>(
        alloc,
        picking,
        minimize,
        &problem,
        settings.limit,
        Blank::new(1),
    )?;
    let names = problem.into_names();
    Ok(Finding {
        names,
        outcome,
        blame,
    })
}

// The outcome of a search and its blame. The tries are counted on a ledger of this search alone.
fn searched<C: Choices, L: Ledger>(
    alloc: Global,
    picking: Picking,
    minimize: bool,
    problem: &C,
    limit: Limit,
    blank: Blank,
) -> Result<(Outcome, Blame), NoMemory>
    requires name { blank.name ≡ L.name }
    requires parts { blank.parts ≡ L.parts }
    requires some { 0 < L.parts }
    ensures outcome { IfOk result (λ found. found.0
        ≡ outcome_of (guided_answer (guide_of picking) (C.problem problem.now) limit)) }
    ensures blame { IfOk result (λ found. found.1 ≡ blame_of minimize (C.problem problem.now) limit found.0) }
    ensures means { IfOk result (λ found. MeansBlame minimize (general (C.problem problem.now)) limit found.0 found.1) }
{
    let mut steps = Steps::<L>::open(blank);
    let outcome = outcome_of(alloc, picking, problem, limit, &mut steps)?;
    let blame = blame_of(alloc, minimize, problem, limit, &outcome, &mut steps)?;
    Ok((outcome, blame))
}

fn outcome_of<C: Choices, L: Ledger>(
    alloc: Global,
    picking: Picking,
    problem: &C,
    limit: Limit,
    steps: &mut Steps<L>,
) -> Result<Outcome, NoMemory>
    ensures { IfOk result (λ outcome. outcome
        ≡ outcome_of (guided_answer (guide_of picking) (C.problem problem.now) limit)) }
{
    match picking {
        Picking::Least => search(alloc, problem, limit, steps),
        Picking::MostMet => count_search(alloc, problem, limit, steps),
    }
}
