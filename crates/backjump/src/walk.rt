// The steps of a search: it opens a point, tries its values, and leaves it.
ghost use Rattle.std.specs.Prelude.{◌≡◌, ◌≢◌, ◌+◌, ◌*◌, ◌<◌, ◌≤◌, ◌&&◌, ◌++◌, ℕ, List, [], ◌∷◌};
ghost use Rattle.std.specs.Prelude.{length, IfOk, OnErr, OnOk, nat_lt};
ghost use Rattle.qualified_goals.specs.declared.variable.Var.{Var};
ghost use Rattle.choice_problem.specs.Problem.{Problem};
ghost use Rattle.choice_problem.specs.Active.{reason};
ghost use Rattle.choice_problem.specs.Answer.{outcome_of, is_reached};
ghost use Rattle.choice_problem.specs.ConflictSet.{union, set_of};
ghost use Rattle.backjump.specs.declared.walk.Turn.TheVariants.{Look, Try, Back};
ghost use Rattle.backjump.specs.Walk.{Point, Search, IsHeld, AtLook, AtValue, AtExhausted, AtCut, AtBack, IsAt, IsEnd};
ghost use Rattle.backjump.specs.Walk.{IsNext, IsLighter, Goes, Looks, Tries, Cuts, Exhausts, Falls, AddsToLast};
ghost use Rattle.backjump.specs.Walk.{IsPointSet, Stops, SomeAt, SomeValue, SomePoint, load, search_of, whole};

use crate::Guide;
use choice_problem::{Choice, Choices, ConflictSet, Counts, Limit, Outcome, Steps, Var};
use choice_tree::Tree;
use plan_types::{List, NoMemory, drop_fields};
use std::alloc::Global;
use std::sync::ledger::Ledger;
use validation::{State, Verdict};

/// The next step of a search.
#[derive(Drop)]
pub enum Turn {
    /// The guide picks a variable.
    Look,
    /// The next value of the last node is tried.
    Try,
    /// The value that the last node gave has failed, with this set.
    Back(ConflictSet),
}

/// The end of a search: its choices are a plan, a set admits none, or the limit is reached.
#[derive(Drop)]
pub enum End {
    Whole,
    NoPlan(ConflictSet),
    Stopped,
}

#[derive(Drop)]
pub enum WalkStep {
    On(Turn),
    Done(End),
}

/// A search in progress. The tree has a node for each choice, and one for the variable that is tried. `failed` has for
/// each node the union of its failed values' sets.
pub struct Walk<G> {
    tree: Tree,
    failed: List<ConflictSet>,
    state: State,
    counts: Counts,
    guide: G,
}

impl<G: Drop> Drop for Walk<G> {
    fn drop(self) {
        drop_fields!(self; tree, failed, state, counts, guide);
    }
}

fn reached(limit: Limit, exhausted: u64) -> bool
    ensures { result ≡ is_reached limit exhausted }
{
    match limit {
        Limit::Unlimited => false,
        Limit::At(most) => most <= exhausted,
    }
}

// Whether the limit ends the search at this node. The first node never ends it.
fn gives_up(limit: Limit, depth: u64, exhausted: u64) -> bool
    ensures { result ≡ (nat_lt 1 depth && is_reached limit exhausted) }
{
    depth > 1 && reached(limit, exhausted)
}

fn last_of(sets: &[ConflictSet]) -> &ConflictSet
    requires { sets.now ≢ [] }
    ensures { (outer : List (List Var)) (set : List Var) → sets.now ≡ outer ++ set ∷ [] → result.now ≡ set }
{
    &sets[sets.len() - 1]
}

// Replaces the last set by its union with this one.
fn add_failed(
    alloc: Global,
    failed: &mut List<ConflictSet>,
    set: ConflictSet,
) -> Result<(), NoMemory>
    requires { failed.old ≢ [] }
    ensures { OnOk result (AddsToLast set failed.old failed.new) }
{
    let last = failed.pop().unwrap();
    let both = last.joined(alloc, set)?;
    failed.push(both)?;
    Ok(())
}

// The set of an exhausted variable: the union of its values' sets, the variable and its reason.
fn blamed(
    alloc: Global,
    failed: &ConflictSet,
    var: Var,
    reason: &ConflictSet,
) -> Result<ConflictSet, NoMemory>
    ensures { IfOk result (λ set. (vars : List Var) → reason.now ≡ set_of vars
        → set ≡ union failed.now (set_of (var ∷ vars))) }
{
    let alone = ConflictSet::of(alloc, &[var])?;
    let open = alone.union(alloc, reason)?;
    let set = failed.union(alloc, &open)?;
    Ok(set)
}

impl<G: Guide + Drop> Walk<G> {
    /// The start, without choices. The guide recalls nothing.
    pub fn start<C: Choices>(alloc: Global, choices: &C, guide: G) -> Result<Walk<G>, NoMemory>
        requires { G.recalls guide [] [] }
        ensures { IfOk result (λ walk. (limit : Limit) →
            AtLook G.recalls (search_of (C.problem choices.now) G.picks limit) walk 0) }
    {
        let state = State::new(alloc, choices)?;
        Ok(Walk {
            tree: Tree::new(alloc),
            failed: List::new(alloc),
            state,
            counts: Counts {
                visited: 0,
                exhausted: 0,
            },
            guide,
        })
    }

    /// The outcome of a search that has ended.
    pub fn outcome(self, end: End) -> Outcome
        ensures { (s : Search) (visited : ℕ) → IsEnd s self visited end → result ≡ outcome_of (whole s) }
    {
        let Walk {
            tree: _,
            failed: _,
            state,
            counts,
            guide: _,
        } = self;
        let trail = state.into_trail();
        match end {
            End::Whole => Outcome::Found { trail, counts },
            End::NoPlan(set) => Outcome::NoPlan { set, counts },
            End::Stopped => Outcome::GaveUp { counts },
        }
    }

    // Adds a node for the next variable.
    fn look<C: Choices>(
        &mut self,
        alloc: Global,
        choices: &C,
        limit: Limit,
    ) -> Result<WalkStep, NoMemory>
        requires { SomeAt G.recalls (search_of (C.problem choices.now) G.picks limit) self.old Look }
        ensures { IfOk result (Looks G.recalls (search_of (C.problem choices.now) G.picks limit) self.old self.new) }
    {
        match self.guide.pick(&self.state) {
            None => Ok(WalkStep::Done(End::Whole)),
            Some(var) => {
                let values = choices.order(alloc, var, self.state.trail())?;
                self.failed.push(ConflictSet::new(alloc))?;
                self.tree.grow(var, values)?;
                Ok(WalkStep::On(Turn::Try))
            }
        }
    }

    // Tries the choice of the value that the last node gave.
    fn choose<C: Choices, L: Ledger>(
        &mut self,
        alloc: Global,
        choices: &C,
        limit: Limit,
        steps: &mut Steps<L>,
        value: u64,
    ) -> Result<WalkStep, NoMemory>
        requires { SomeValue G.recalls (search_of (C.problem choices.now) G.picks limit) self.old value }
        ensures ticks { steps.new ≡ steps.old + 1 }
        ensures step { IfOk result
            (Tries G.recalls (search_of (C.problem choices.now) G.picks limit) value self.old self.new) }
    {
        let choice = Choice {
            var: self.tree.top(),
            val: value,
        };
        self.counts.visited = self.counts.visited.saturating_add(1);
        match self.state.choose_open(alloc, choices, choice, steps)? {
            Verdict::Accepted => {
                self.guide.chosen(choice.var);
                Ok(WalkStep::On(Turn::Look))
            }
            Verdict::Conflict(set) => {
                self.guide.learn(alloc, &set, self.state.trail())?;
                Ok(WalkStep::On(Turn::Back(set)))
            }
        }
    }

    // Removes the last node. The value of the node before has failed with its set.
    fn cut(&mut self, set: ConflictSet) -> Result<WalkStep, NoMemory>
        requires { SomePoint G.recalls self.old }
        ensures { IfOk result (Cuts G.recalls set self.old self.new) }
    {
        self.tree.back();
        self.failed.pop();
        if self.tree.depth() == 0 {
            return Ok(WalkStep::Done(End::NoPlan(set)));
        }
        self.state.undo();
        self.guide.taken_back(self.tree.top())?;
        Ok(WalkStep::On(Turn::Back(set)))
    }

    // The set of the last node, which is exhausted.
    fn exhausted_set(&self, alloc: Global) -> Result<ConflictSet, NoMemory>
        requires { SomePoint G.recalls self.now }
        ensures { IfOk result (IsPointSet G.recalls self.now) }
    {
        let var = self.tree.top();
        let reason = self.state.reason(alloc, var)?;
        let set = blamed(alloc, last_of(self.failed.as_slice()), var, &reason)?;
        Ok(set)
    }

    // Leaves the last node, which is exhausted, or ends the search at its limit.
    fn exhaust(&mut self, alloc: Global, limit: Limit) -> Result<WalkStep, NoMemory>
        requires { SomePoint G.recalls self.old }
        ensures { IfOk result (Exhausts G.recalls G.picks limit self.old self.new) }
    {
        if gives_up(limit, self.tree.depth(), self.counts.exhausted) {
            return Ok(WalkStep::Done(End::Stopped));
        }
        let set = self.exhausted_set(alloc)?;
        self.counts.exhausted = self.counts.exhausted.saturating_add(1);
        self.guide.learn(alloc, &set, self.state.trail())?;
        self.cut(set)
    }

    // Tries the next value of the last node.
    fn try_next<C: Choices, L: Ledger>(
        &mut self,
        alloc: Global,
        choices: &C,
        limit: Limit,
        steps: &mut Steps<L>,
    ) -> Result<WalkStep, NoMemory>
        requires { SomeAt G.recalls (search_of (C.problem choices.now) G.picks limit) self.old Try }
        ensures ok { IfOk result
            (Goes G.recalls (search_of (C.problem choices.now) G.picks limit)
            self.old self.new Try steps.old steps.new) }
        ensures err { OnErr result
            (Stops G.recalls (search_of (C.problem choices.now) G.picks limit) self.old Try steps.old steps.new) }
    {
        match self.tree.next_value() {
            None => self.exhaust(alloc, limit),
            Some(value) => self.choose(alloc, choices, limit, steps, value),
        }
    }

    // The last node's value has failed. A set with the node's variable stays there; another one leaves the node.
    fn fall(&mut self, alloc: Global, set: ConflictSet) -> Result<WalkStep, NoMemory>
        requires { SomePoint G.recalls self.old }
        ensures { IfOk result (Falls G.recalls set self.old self.new) }
    {
        if set.has(self.tree.top()) {
            add_failed(alloc, &mut self.failed, set)?;
            return Ok(WalkStep::On(Turn::Try));
        }
        self.cut(set)
    }

    /// The next step of the search.
    pub fn advance<C: Choices, L: Ledger>(
        &mut self,
        alloc: Global,
        choices: &C,
        limit: Limit,
        steps: &mut Steps<L>,
        turn: Turn,
    ) -> Result<WalkStep, NoMemory>
        requires { SomeAt G.recalls (search_of (C.problem choices.now) G.picks limit) self.old turn }
        ensures ok { IfOk result
            (Goes G.recalls (search_of (C.problem choices.now) G.picks limit)
            self.old self.new turn steps.old steps.new) }
        ensures err { OnErr result
            (Stops G.recalls (search_of (C.problem choices.now) G.picks limit) self.old turn steps.old steps.new) }
    {
        match turn {
            Turn::Look => self.look(alloc, choices, limit),
            Turn::Try => self.try_next(alloc, choices, limit, steps),
            Turn::Back(set) => self.fall(alloc, set),
        }
    }
}
