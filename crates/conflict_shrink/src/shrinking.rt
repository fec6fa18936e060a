// Shrinking a conflict set: each variable is tried, and dropped where the others admit none.
ghost use Rattle.std.specs.Prelude.{◌≡◌, ◌≢◌, ◌+◌, ◌≤◌, ℕ, IfOk, IsTrue, OnOk, Err, map};
ghost use Rattle.plan_types.specs.declared.limit.Limit.{Limit};
ghost use Rattle.choice_problem.specs.General.{general};
ghost use Rattle.conflict_shrink.specs.declared.shrinking.ShrinkFault.TheVariants.{NoMemory as shrink_no_memory};
ghost use Rattle.conflict_shrink.specs.Restricted.{are_known, CanBeShrunk};
ghost use Rattle.conflict_shrink.specs.Shrinking.{GoesOn, GivesUp, EndsOver, EndsTight, IsTight, cut};
ghost use Rattle.conflict_shrink.specs.Shrinking.{limit_after, shrinking, shrunk_at, spent_with, tried};
ghost use Rattle.conflict_shrink.specs.Shrinking.{tries_without, untried_stage};

use crate::Restricted;
use backjump::search;
use choice_problem::{Choice, Choices, ConflictSet, Limit, Outcome, Steps, Var};
use plan_types::{List, NoMemory};
use std::alloc::Global;
use std::sync::ledger::Ledger;

/// A conflict set from which no variable can be dropped.
#[derive(Debug, Drop)]
pub struct Shrunk {
    pub set: ConflictSet,
    /// For each variable of the set, in goal order, choices that hold within the set without the variable.
    pub maps: List<List<Choice>>,
}

/// The reason why a conflict set isn't shrunk.
#[derive(Clone, Copy, Debug, PartialEq, Eq, Drop)]
pub enum ShrinkFault {
    NoMemory,
    /// The last search gave up. `spent` is the number of exhausted points of all searches together. It
    /// saturates at 2^64 - 1.
    TooLong { spent: u64 },
}

impl From<NoMemory> for ShrinkFault {
    ghost from_gives = { λ _ fault. fault ≡ shrink_no_memory };

    fn from(_: NoMemory) -> Self {
        ShrinkFault::NoMemory
    }
}

/// The state of a shrinking: the set left, the trails found without each variable that stays, and the number of
/// exhausted points.
#[derive(Drop)]
struct Stage {
    left: ConflictSet,
    trails: List<List<Choice>>,
    spent: u64,
}

fn limit_after(budget: Limit, spent: u64) -> Limit
    ensures { result ≡ limit_after budget spent }
{
    match budget {
        Limit::Unlimited => Limit::Unlimited,
        Limit::At(points) => Limit::At(points.saturating_sub(spent)),
    }
}

// The choices of variables of a set.
fn cut(alloc: Global, set: &ConflictSet, trail: &[Choice]) -> Result<List<Choice>, NoMemory>
    ensures { IfOk result (λ choices. choices ≡ cut set.now trail.now) }
{
    let mut choices = List::new(alloc);
    for c in trail {
        if set.has(c.var) {
            choices.push(*c)?;
        }
    }
    Ok(choices)
}

fn cut_all(
    alloc: Global,
    set: &ConflictSet,
    trails: &[List<Choice>],
) -> Result<List<List<Choice>>, NoMemory>
    ensures { IfOk result (λ maps. maps ≡ map (cut set.now) trails.now) }
{
    let mut maps = List::new(alloc);
    for trail in trails {
        maps.push(cut(alloc, set, trail.as_slice())?)?;
    }
    Ok(maps)
}

impl Stage {
    fn start(alloc: Global, set: &ConflictSet) -> Result<Stage, NoMemory>
        ensures { IfOk result (λ stage. stage ≡ untried_stage set.now) }
    {
        Ok(Stage {
            left: set.copy(alloc)?,
            trails: List::new(alloc),
            spent: 0,
        })
    }

    // Searches without a variable. The variable stays where the search finds a trail.
    fn try_without<C: Choices, L: Ledger>(
        &mut self,
        alloc: Global,
        choices: &C,
        v: Var,
        budget: Limit,
        steps: &mut Steps<L>,
    ) -> Result<(), ShrinkFault>
        requires { IsTrue (are_known (C.problem choices.now) self.old.left) }
        ensures ok { OnOk result (tried (C.problem choices.now) budget v self.old ≡ GoesOn self.new) }
        ensures known { OnOk result (IsTrue (are_known (C.problem choices.now) self.new.left)) }
        ensures too_long { (spent : ℕ) → result ≡ Err (ShrinkFault.TooLong spent)
            → tried (C.problem choices.now) budget v self.old ≡ GivesUp spent }
        ensures ticks { result ≢ Err ShrinkFault.NoMemory
            → steps.new ≡ steps.old + tries_without (C.problem choices.now) budget v self.old }
        ensures most { steps.new ≤ steps.old + tries_without (C.problem choices.now) budget v self.old }
    {
        let others = self.left.without(alloc, v)?;
        let part = Restricted::new(choices, others);
        let limit = limit_after(budget, self.spent);
        match search(alloc, &part, limit, steps)? {
            Outcome::Found { trail, counts } => {
                self.spent = self.spent.saturating_add(counts.exhausted);
                self.trails.push(trail)?;
                Ok(())
            }
            Outcome::NoPlan { counts, .. } => {
                self.spent = self.spent.saturating_add(counts.exhausted);
                self.left = part.into_set();
                Ok(())
            }
            Outcome::GaveUp { counts } => Err(ShrinkFault::TooLong {
                spent: self.spent.saturating_add(counts.exhausted),
            }),
        }
    }

    fn shrunk(self, alloc: Global) -> Result<Shrunk, NoMemory>
        ensures { IfOk result (λ shrunk. shrunk ≡ shrunk_at self) }
    {
        let maps = cut_all(alloc, &self.left, self.trails.as_slice())?;
        Ok(Shrunk {
            set: self.left,
            maps,
        })
    }
}

/// Shrinks a conflict set. Each variable is tried in goal order, and dropped where the others left admit none.
/// The budget limits the exhausted points of all searches together.
pub fn shrink<C: Choices, L: Ledger>(
    alloc: Global,
    choices: &C,
    set: &ConflictSet,
    budget: Limit,
    steps: &mut Steps<L>,
) -> Result<Shrunk, ShrinkFault>
    requires { CanBeShrunk (C.problem choices.now) set.now }
    ensures shrunk { IfOk result (EndsTight (shrinking (C.problem choices.now) set.now budget)) }
    ensures tight { IfOk result (IsTight (general (C.problem choices.now)) set.now) }
    ensures too_long { (spent : ℕ) → result ≡ Err (ShrinkFault.TooLong spent)
        → EndsOver (shrinking (C.problem choices.now) set.now budget) spent }
    ensures unlimited { (spent : ℕ) → budget ≡ Limit.Unlimited → result ≢ Err (ShrinkFault.TooLong spent) }
    ensures ticks { result ≢ Err ShrinkFault.NoMemory
        → steps.new ≡ steps.old + (shrinking (C.problem choices.now) set.now budget).visited }
    ensures most { steps.new ≤ steps.old + (shrinking (C.problem choices.now) set.now budget).visited }
{
    let mut stage = Stage::start(alloc, set)?;
    for v in set.vars() {
        stage.try_without(alloc, choices, *v, budget, steps)?;
    }
    Ok(stage.shrunk(alloc)?)
}
