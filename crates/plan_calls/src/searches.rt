// Searches of written problems, without a limit. `with`, a fault: the outcome, or that the fault breaks a law. `small`:
// so many packages without values. `asked`: the outcome of the five packages, and whether the search makes at most 17
// calls for orders and 20 for demands. `begun`: the number of choices before the first one.
ghost use Rattle.std.specs.Prelude.{◌≡◌, ◌<◌};

use crate::problems::{five, small, written_with};
use backjump::search;
use choice_problem::{Choice, Choices, Counts, Demand, Limit, Outcome, Steps, Trail, Var, Written};
use plan_types::{List, NoMemory};
use std::alloc::Global;
use std::cell::Cell;
use std::marker::Brand;
use std::sync::ledger::{Blank, Ledger};
use std::test::Fail;
use validation::State;

pub const CASES: &str = "\
small 0 => found 0; visited 0 exhausted 0
small 1 => no plan 0; visited 0 exhausted 1
with nothing => found 3; visited 4 exhausted 0
with a variable twice => refused
with an order that is no permutation => refused
with a root of what isn't listed => refused
with a root with a condition => refused
with a demand without one => refused
with a condition on two packages => refused
asked => no plan 0 4; visited 20 exhausted 5; few questions
begun => 0 choices
";

fn counted<C: Choices, L: Ledger>(
    alloc: Global,
    choices: &C,
    blank: Blank,
) -> Result<Outcome, NoMemory>
    requires name { blank.name ≡ L.name }
    requires parts { blank.parts ≡ L.parts }
    requires some { 0 < L.parts }
{
    let mut steps: Steps<L> = Steps::open(blank);
    search(alloc, choices, Limit::Unlimited, &mut steps)
}

fn searched<C: Choices>(alloc: Global, choices: &C) -> Result<Outcome, NoMemory> {
    counted::<C, Brand>(alloc, choices, Blank::new(1))
}

fn shown(alloc: Global, outcome: &Outcome) -> Result<String, NoMemory> {
    let mut text = String::new(alloc);
    let counts = match outcome {
        Outcome::Found { trail, counts } => {
            write!(&mut text, "found {}", trail.len())?;
            counts
        }
        Outcome::NoPlan { set, counts } => {
            text.push_str("no plan")?;
            for var in set.vars() {
                write!(&mut text, " {}", var.package)?;
            }
            counts
        }
        Outcome::GaveUp { counts } => {
            text.push_str("gave up")?;
            counts
        }
    };
    let Counts { visited, exhausted } = *counts;
    write!(&mut text, "; visited {visited} exhausted {exhausted}")?;
    Ok(text)
}

fn outcome(alloc: Global, problem: Option<Written>) -> Result<String, NoMemory> {
    match problem {
        None => Ok(String::from_str(alloc, "refused")?),
        Some(problem) => {
            let outcome = searched(alloc, &problem)?;
            shown(alloc, &outcome)
        }
    }
}

// A problem that counts the calls for orders and for demands.
#[derive(Drop)]
struct CountedQuestions<C> {
    choices: C,
    orders: Cell<u64>,
    demands: Cell<u64>,
}

impl<C: Choices> Choices for CountedQuestions<C> {
    ghost problem = { λ a. C.problem a.choices };

    ghost lawful = { λ a. C.lawful a.choices };

    fn known(&self, v: Var) -> bool {
        self.choices.known(v)
    }

    fn domain(&self, v: Var) -> u64 {
        self.choices.domain(v)
    }

    fn roots(&self, alloc: Global) -> Result<List<Demand>, NoMemory> {
        self.choices.roots(alloc)
    }

    fn order(&self, alloc: Global, v: Var, trail: &Trail) -> Result<List<u64>, NoMemory> {
        self.orders.set(self.orders.get().saturating_add(1));
        self.choices.order(alloc, v, trail)
    }

    fn barred(&self, c: Choice) -> bool {
        self.choices.barred(c)
    }

    fn demands(&self, alloc: Global, owner: Choice) -> Result<List<Demand>, NoMemory> {
        self.demands.set(self.demands.get().saturating_add(1));
        self.choices.demands(alloc, owner)
    }
}

impl<C> CountedQuestions<C> {
    fn amount(&self) -> &'static str {
        let are_few = self.orders.get() <= 17 && self.demands.get() <= 20;
        if are_few { "few" } else { "many" }
    }
}

fn found(alloc: Global, problem: &CountedQuestions<Written>) -> Result<String, NoMemory> {
    let outcome = searched(alloc, problem)?;
    shown(alloc, &outcome)
}

fn questions(alloc: Global, choices: Written) -> Result<String, NoMemory> {
    let problem = CountedQuestions {
        choices,
        orders: Cell::new(0),
        demands: Cell::new(0),
    };
    let text = found(alloc, &problem)?;
    Ok(format!(in alloc; "{text}; {} questions", problem.amount())?)
}

fn count_begun(alloc: Global, choices: &Written) -> Result<usize, NoMemory> {
    let state = State::new(alloc, choices)?;
    Ok(state.trail().choices().len())
}

fn begun(alloc: Global, choices: &Written) -> Result<String, NoMemory> {
    let count = count_begun(alloc, choices)?;
    Ok(format!(in alloc; "{count} choices")?)
}

pub fn answer(alloc: Global, case: &str) -> Result<String, Fail> {
    if let Some(fault) = case.strip_prefix("with ") {
        return Ok(outcome(alloc, written_with(alloc, fault)?)?);
    }
    if let Some(count) = case.strip_prefix("small ") {
        return Ok(outcome(alloc, small(alloc, count.parse::<u64>()?)?)?);
    }
    let five = five(alloc)?.ok_or("refused")?;
    if case == "asked" {
        Ok(questions(alloc, five)?)
    } else {
        Ok(begun(alloc, &five)?)
    }
}
