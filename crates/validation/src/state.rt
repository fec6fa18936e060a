// The state of a search, and the verdict on one more choice.
ghost use Rattle.std.specs.Prelude.{◌≡◌, ◌≢◌, ◌+◌, ◌<◌, List, ◌∷◌, [], ◌++◌, IfOk, IsTrue, OnErr, Some, None, take};
ghost use Rattle.choice_problem.specs.declared.problem.Choice.{Choice};
ghost use Rattle.choice_problem.specs.Problem.{Problem, IsChoice, Lawful};
ghost use Rattle.choice_problem.specs.Active.{is_open, least_open, open_after, reason};
ghost use Rattle.choice_problem.specs.Conflict.{lasting_set, conflict};
ghost use Rattle.choice_problem.specs.ConflictSet.{set_of};
ghost use Rattle.choice_problem.specs.Trail.{AreOfDifferentVars, value_in};
ghost use Rattle.choice_stack.specs.Addition.{IsAddition};
ghost use Rattle.validation.specs.Pending.{AreOwned, count_before};
ghost use Rattle.validation.specs.View.{View, Represents, view_of};
ghost use Rattle.choice_stack.specs.Stack.{front_of, made, IsSettled};
ghost use Rattle.validation.specs.Verdict.{verdict_of, Leaves, set_before, set_after};

use crate::Verdict;
use crate::pending::Pending;
use choice_problem::{Choice, Choices, ConflictSet, Steps, Trail, Var};
use choice_stack::{Addition, Stack};
use demand_cycles::cycle_set_of;
use plan_types::{List, NoMemory};
use std::alloc::Global;
use std::marker::Model;
use std::sync::ledger::Ledger;

/// The choices so far, with their listed and active demands.
#[derive(Drop)]
pub struct State {
    stack: Stack,
}

impl Model for State {
    ghost use Rattle.validation.specs.View.{View};

    ghost Value = { View };

    ghost view = { λ s. s.stack };
}

impl State {
    /// The state before any choice, with the roots active.
    pub fn new<C: Choices>(alloc: Global, choices: &C) -> Result<State, NoMemory>
        ensures { IfOk result (λ state. Represents (C.problem choices.now) state × (state.trail ≡ [])) }
    {
        let roots = choices.roots(alloc)?;
        let stack = Stack::of(alloc, roots)?;
        Ok(State { stack })
    }

    /// The least open variable.
    pub fn least(&self) -> Option<Var>
        ensures { (p : Problem) → Lawful p → Represents p self.now → result ≡ least_open p self.now.trail }
    {
        self.open_after(None)
    }

    /// The least open variable behind `v`, or the least of all for `None`.
    pub fn open_after(&self, v: Option<Var>) -> Option<Var>
        ensures { (p : Problem) → Lawful p → Represents p self.now → result ≡ open_after p self.now.trail v }
    {
        self.stack.open_after(v)
    }

    /// Whether a variable is open.
    pub fn is_open(&self, v: Var) -> bool
        ensures { (p : Problem) → Lawful p → Represents p self.now → result ≡ is_open p self.now.trail v }
    {
        self.stack.is_open(v)
    }

    /// The reason of an open variable: the variables in the condition of the first active demand on it.
    pub fn reason(&self, alloc: Global, v: Var) -> Result<ConflictSet, NoMemory>
        ensures { (p : Problem) → Represents p self.now
            → IfOk result (λ set. set ≡ set_of (reason p self.now.trail v)) }
    {
        let set = self.stack.reason(alloc, v)?;
        Ok(set)
    }

    /// The choices, in the order in which they were made.
    pub fn trail(&self) -> &Trail
        ensures trail { result.now ≡ self.now.trail }
        ensures different { AreOfDifferentVars result.now }
    {
        self.stack.trail()
    }

    /// The choices as a list.
    pub fn into_trail(self) -> List<Choice>
        ensures trail { result ≡ self.trail }
        ensures different { AreOfDifferentVars result }
    {
        self.stack.into_trail()
    }

    /// Makes a choice of the least open variable. A conflict changes nothing.
    pub fn choose<C: Choices, L: Ledger>(
        &mut self,
        alloc: Global,
        choices: &C,
        c: Choice,
        steps: &mut Steps<L>,
    ) -> Result<Verdict, NoMemory>
        requires stands { Represents (C.problem choices.now) self.old }
        requires open { least_open (C.problem choices.now) self.old.trail ≡ Some c.var }
        requires value { c.val < (C.problem choices.now).domain c.var }
        ensures ticks { steps.new ≡ steps.old + 1 }
        ensures verdict { IfOk result (λ verdict.
            verdict ≡ verdict_of (conflict (C.problem choices.now) self.old.trail c)) }
        ensures leaves { IfOk result (λ verdict. Leaves (C.problem choices.now) self.old self.new c verdict) }
        ensures err { OnErr result (self.new ≡ self.old) }
    {
        self.choose_open(alloc, choices, c, steps)
    }

    /// Makes a choice of an open variable. A conflict changes nothing.
    pub fn choose_open<C: Choices, L: Ledger>(
        &mut self,
        alloc: Global,
        choices: &C,
        c: Choice,
        steps: &mut Steps<L>,
    ) -> Result<Verdict, NoMemory>
        requires stands { Represents (C.problem choices.now) self.old }
        requires open { IsTrue (is_open (C.problem choices.now) self.old.trail c.var) }
        requires value { c.val < (C.problem choices.now).domain c.var }
        ensures ticks { steps.new ≡ steps.old + 1 }
        ensures verdict { IfOk result (λ verdict.
            verdict ≡ verdict_of (conflict (C.problem choices.now) self.old.trail c)) }
        ensures leaves { IfOk result (λ verdict. Leaves (C.problem choices.now) self.old self.new c verdict) }
        ensures err { OnErr result (self.new ≡ self.old) }
    {
        steps.tick();
        if let Some(set) = fault_before(alloc, choices, &self.stack, c)? {
            return Ok(Verdict::Conflict(set));
        }
        let demands = choices.demands(alloc, c)?;
        let addition = Addition::of(alloc, &self.stack, c, demands)?;
        if let Some(set) = fault_after(alloc, &self.stack, &addition)? {
            return Ok(Verdict::Conflict(set));
        }
        self.stack.make(alloc, addition)?;
        Ok(Verdict::Accepted)
    }

    /// Removes the last accepted choice. It allocates no memory.
    pub fn undo(&mut self)
        requires { self.old.trail ≢ [] }
        ensures stands { (p : Problem) → Represents p self.old → Represents p self.new }
        ensures trail { (front : List Choice) (c : Choice) → self.old.trail ≡ front ++ c ∷ [] → self.new.trail ≡ front }
    {
        self.stack.undo();
    }
}

// The conflict set of a value that is barred, or that an active demand refuses.
fn fault_before<C: Choices>(
    alloc: Global,
    choices: &C,
    stack: &Stack,
    c: Choice,
) -> Result<Option<ConflictSet>, NoMemory>
    requires { IsChoice (C.problem choices.now) c }
    ensures { IfOk result (λ set. set ≡ set_before (C.problem choices.now) c stack.now.active) }
{
    if choices.barred(c) {
        let set = ConflictSet::of(alloc, &[c.var])?;
        return Ok(Some(set));
    }
    let set = stack.refused(alloc, c)?;
    Ok(set)
}

// The set of a demand that the choice would make active and break, or of the first lasting rule that it breaks.
fn fault_after(
    alloc: Global,
    stack: &Stack,
    addition: &Addition,
) -> Result<Option<ConflictSet>, NoMemory>
    requires free { value_in stack.now.trail addition.now.choice.var ≡ None }
    requires settled { IsSettled stack.now }
    requires owned { AreOwned addition.now.choice.var addition.now.demands }
    requires turned { IsAddition stack.now addition.now }
    requires lasting { lasting_set stack.now.trail stack.now.active ≡ None }
    ensures { IfOk result (λ set. set ≡ set_after (made stack.now addition.now.choice addition.now.demands)) }
{
    let pending = Pending::of(stack, addition)?;
    if let Some(set) = pending.broken(alloc)? {
        return Ok(Some(set));
    }
    let set = lasting_fault(alloc, &pending)?;
    Ok(set)
}

// The set of the first broken lasting rule, where none was broken before the last choice.
fn lasting_fault(alloc: Global, pending: &Pending<'_>) -> Result<Option<ConflictSet>, NoMemory>
    requires { lasting_set (front_of pending.now.trail) (take (count_before pending.now) pending.now.active) ≡ None }
    ensures { IfOk result (λ set. set ≡ lasting_set pending.now.trail pending.now.active) }
{
    let before = pending.before();
    if let Some(set) = cycle_set_of(alloc, pending, before)? {
        return Ok(Some(set));
    }
    let set = pending.disagreement(alloc)?;
    Ok(set)
}
