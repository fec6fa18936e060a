// The stack of choices, and its undoing.
ghost use Rattle.std.specs.Prelude.{◌≡◌, ◌≢◌, ◌<◌, ◌↔◌, ◌++◌, ◌&&◌, [], ◌∷◌, List, true, IsTrue, None, Some, is_none};
ghost use Rattle.std.specs.Prelude.{MatchOption, IfOk, IfSome, OnOk, OnErr, length, take, map, find, slice_get};
ghost use Rattle.std.specs.List.{Contains, list_any};
ghost use Rattle.qualified_goals.specs.declared.variable.Var.{Var};
ghost use Rattle.choice_problem.specs.Trail.{AreOfDifferentVars, value_in};
ghost use Rattle.choice_problem.specs.Active.{asks_for, vars_of_first, waiting};
ghost use Rattle.choice_problem.specs.Conflict.{edges_of, refuses, set_of_first};
ghost use Rattle.choice_problem.specs.ConflictSet.{first_behind, has, set_of};
ghost use Rattle.choice_stack.specs.Open.{StayKept, is_chosen_in};
ghost use Rattle.demand_agreement.specs.Places.{places_on};
ghost use Rattle.demand_cycles.specs.Cycles.{HasEdge};
ghost use Rattle.goal_links.specs.declared.mentions.Mention.{Mention};
ghost use Rattle.choice_stack.specs.Addition.{IsAddition};
ghost use Rattle.choice_stack.specs.View.{View};
ghost use Rattle.goal_links.specs.Mentions.{vars_at};
ghost use Rattle.choice_stack.specs.Stack.{AreOpen, IsSettled, undone, names, AllBelow, turned, made, demands_at};

use crate::addition::Addition;
use crate::checks::{
    demand_in, few_owners_at, first_refusing, owners_at, reason_at, set_at, yes_among,
    yes_targets_at,
};
use crate::goals::Goals;
use crate::growth::{activate, list_all, make_ready};
use crate::picked::push_range;
use choice_problem::{Choice, ConflictSet, Demand, Trail, Values, Var};
use goal_links::Mentions;
use plan_types::{List, NoMemory, drop_fields};
use std::alloc::Global;
use std::marker::Model;

/// The lengths of the lists before a choice, and the entry of its variable.
#[derive(Clone, Copy, Debug, Drop)]
pub(crate) struct Mark {
    pub(crate) listed: usize,
    pub(crate) watchers: usize,
    pub(crate) active: usize,
    pub(crate) entry: usize,
}

/// Choices, with their listed demands. Some of these are active.
pub struct Stack {
    trail: Trail,
    marks: Vec<Mark>,
    listed: Vec<Demand>,
    // The mentions of the variables of each listed demand's condition.
    watchers: Mentions,
    // The mentions of the targets of active demands.
    goals: Goals,
}

impl Drop for Stack {
    fn drop(self) {
        drop_fields!(self; trail, marks, listed, watchers, goals);
    }
}

impl Model for Stack {
    ghost use Rattle.std.specs.Prelude.{map};
    ghost use Rattle.choice_stack.specs.View.{View};
    ghost use Rattle.goal_links.specs.Mentions.{places_of};
    ghost use Rattle.choice_stack.specs.Stack.{AreParts, demands_at};

    ghost Value = { View };

    ghost view = { λ s. record {
      trail = s.trail;
      listed = s.listed.items;
      active = demands_at s.listed.items (places_of s.goals.said);
      listed_before = map (λ m. m.listed) s.marks.items;
      active_before = map (λ m. m.active) s.marks.items;
    } };

    ghost invariant = { λ s. AreParts s.trail s.marks.items s.listed.items s.goals.said s.watchers.said s.goals.row };
}

impl Stack {
    /// The stack before any choice, with demands that are listed and active.
    pub fn of(alloc: Global, roots: List<Demand>) -> Result<Stack, NoMemory>
        ensures { IfOk result (λ stack. stack
            ≡ record { trail = []; listed = roots; active = roots; listed_before = []; active_before = [] }) }
    {
        let trail = Trail::new(alloc);
        let mut listed = Vec::new(alloc);
        let mut watchers = Mentions::new(alloc);
        let mut goals = Goals::new(alloc);
        let mut fresh = Vec::new(alloc);
        push_range(&mut fresh, 0, roots.len())?;
        let ready = make_ready(
            &mut listed,
            &mut watchers,
            &mut goals,
            roots.as_slice(),
            &[],
            fresh.as_slice(),
        )?;
        list_all(&mut listed, roots);
        watchers.take_up_all(ready.waiting);
        activate(&mut goals, &trail, ready.active);
        Ok(Stack {
            trail,
            marks: Vec::new(alloc),
            listed,
            watchers,
            goals,
        })
    }

    /// The choices, in the order in which they were made.
    pub fn trail(&self) -> &Trail
        ensures trail { result.now ≡ self.now.trail }
        ensures different { AreOfDifferentVars result.now }
    {
        &self.trail
    }

    /// The values that the choices give.
    pub(crate) fn values(&self) -> Values<'_>
        ensures { result ≡ self.now.trail }
    {
        Values::of(&self.trail)
    }

    /// The values that the choices and one more choice give.
    pub fn values_with(&self, c: Choice) -> Values<'_>
        requires { value_in self.now.trail c.var ≡ None }
        ensures { result ≡ self.now.trail ++ c ∷ [] }
    {
        Values::with(&self.trail, c)
    }

    /// The demands that are listed.
    pub fn listed(&self) -> &[Demand]
        ensures { result.now ≡ self.now.listed }
    {
        self.listed.as_slice()
    }

    /// The choices as a list.
    pub fn into_trail(self) -> List<Choice>
        ensures trail { result ≡ self.trail }
        ensures different { AreOfDifferentVars result }
    {
        let Stack {
            trail,
            marks: _marks,
            listed: _listed,
            watchers: _watchers,
            goals: _goals,
        } = self;
        trail.into_choices()
    }
}

impl Stack {
    /// Removes the last choice, with the demands that came with it.
    pub fn undo(&mut self)
        requires { self.old.trail ≢ [] }
        ensures { self.new ≡ undone self.old }
    {
        let mark = pop_mark(&mut self.marks).unwrap();
        forget(&mut self.goals, &self.trail, mark.active);
        self.watchers.cut(mark.watchers);
        self.listed.truncate(mark.listed);
        self.trail.pop();
        self.goals.put_back(mark.entry);
    }

    /// Pushes a choice of an open variable, lists its demands, and makes those active that become Yes. All memory is
    /// allocated before the first change.
    pub fn make(&mut self, alloc: Global, addition: Addition) -> Result<(), NoMemory>
        requires new { value_in self.old.trail addition.choice.var ≡ None }
        requires asked { IsTrue (has (map (λ d. d.target) self.old.active) addition.choice.var) }
        requires turned { IsAddition self.old addition }
        ensures ok { OnOk result (self.new ≡ made self.old addition.choice addition.demands) }
        ensures err { OnErr result (self.new ≡ self.old) }
    {
        let Addition {
            choice,
            demands,
            woken,
            fresh,
        } = addition;
        let ready = make_ready(
            &mut self.listed,
            &mut self.watchers,
            &mut self.goals,
            demands.as_slice(),
            woken.as_slice(),
            fresh.as_slice(),
        )?;
        let entry = self.goals.entry(choice.var);
        let mark = Mark {
            listed: self.listed.len(),
            watchers: self.watchers.len(),
            active: self.goals.len(),
            entry,
        };
        add_level(alloc, &mut self.trail, &mut self.marks, choice, mark)?;
        self.goals.take_out(entry);
        list_all(&mut self.listed, demands);
        self.watchers.take_up_all(ready.waiting);
        activate(&mut self.goals, &self.trail, ready.active);
        Ok(())
    }

    /// The places of the listed demands that name a variable and are Yes after some choices.
    pub(crate) fn turned(
        &self,
        alloc: Global,
        trail: &Values<'_>,
        v: Var,
    ) -> Result<Vec<usize>, NoMemory>
        ensures demands { IfOk result (λ found.
            demands_at self.now.listed found.items ≡ turned trail.now v self.now.listed) }
        ensures within { IfOk result (λ found. AllBelow (length self.now.listed) found.items) }
    {
        let places = self.watchers.places(v);
        let found = yes_among(alloc, self.listed.as_slice(), trail, places)?;
        Ok(found)
    }
}

impl Stack {
    /// The first variable behind `v`, or of all for `None`, that has no value and is the target of an active
    /// demand.
    pub fn open_after(&self, v: Option<Var>) -> Option<Var>
        ensures { result ≡ first_behind v (waiting self.now.trail self.now.active) }
    {
        if let Some(v) = v {
            if is_open(&self.goals, &self.trail, v) {
                return self.goals.next(v);
            }
        }
        self.goals.after(v)
    }

    /// Whether a variable has no value and is the target of an active demand.
    pub fn is_open(&self, v: Var) -> bool
        ensures { result ≡ has (waiting self.now.trail self.now.active) v }
    {
        is_open(&self.goals, &self.trail, v)
    }

    /// The set of the condition of the first active demand on a variable.
    pub fn reason(&self, alloc: Global, v: Var) -> Result<ConflictSet, NoMemory>
        ensures { IfOk result (λ set. set ≡ set_of (vars_of_first (find (asks_for v) self.now.active))) }
    {
        let first = self.goals.places(v).next();
        let set = reason_at(alloc, self.listed.as_slice(), first)?;
        Ok(set)
    }

    /// The set of the first active demand that refuses a choice.
    pub fn refused(&self, alloc: Global, c: Choice) -> Result<Option<ConflictSet>, NoMemory>
        ensures { IfOk result (λ set. set ≡ set_of_first (find (refuses c) self.now.active)) }
    {
        let places = self.goals.places(c.var);
        let first = first_refusing(self.listed.as_slice(), places, c);
        let set = set_at(alloc, self.listed.as_slice(), first)?;
        Ok(set)
    }
}

// The graph of the active demands, with an edge from the owner of each to its target.
impl Stack {
    /// The number of active demands.
    pub fn count(&self) -> usize
        ensures { result ≡ length self.now.active }
    {
        self.goals.len()
    }

    /// The active demand at a place.
    pub fn demand(&self, place: usize) -> &Demand
        requires { place < length self.now.active }
        ensures { slice_get self.now.active place ≡ Some result.now }
    {
        let listed = self.goals.at(place).place;
        demand_in(self.listed.as_slice(), listed)
    }

    /// The places of the active demands on a variable.
    pub fn places_on(&self, alloc: Global, v: Var) -> Result<Vec<usize>, NoMemory>
        ensures { IfOk result (λ found. found.items ≡ places_on v self.now.active) }
    {
        let found = self.goals.indices(alloc, v)?;
        Ok(found)
    }

    /// The variables from which edges lead to this one.
    pub fn sources(&self, alloc: Global, to: Var) -> Result<List<Var>, NoMemory>
        ensures { IfOk result (λ found. (v : Var) → (Contains found v) ↔ (HasEdge (edges_of self.now.active) v to)) }
    {
        let places = self.goals.places(to);
        let owners = owners_at(alloc, self.listed.as_slice(), places)?;
        Ok(List::from_vec(owners))
    }

    /// The same, or nothing where many edges lead to the variable.
    pub fn few_sources(&self, alloc: Global, to: Var) -> Result<Option<List<Var>>, NoMemory>
        ensures { IfOk result (λ few. IfSome few (λ found. (v : Var) →
            (Contains found v) ↔ (HasEdge (edges_of self.now.active) v to))) }
    {
        let places = self.goals.places(to);
        let Some(owners) = few_owners_at(alloc, self.listed.as_slice(), places)? else {
            return Ok(None);
        };
        Ok(Some(List::from_vec(owners)))
    }

    /// The variables to which edges from this one lead.
    pub fn targets(&self, alloc: Global, from: Var) -> Result<List<Var>, NoMemory>
        requires { IsSettled self.now }
        ensures { IfOk result (λ found. (v : Var) → (Contains found v) ↔ (HasEdge (edges_of self.now.active) from v)) }
    {
        let trail = self.values();
        let places = self.watchers.places(from);
        let targets = yes_targets_at(alloc, self.listed.as_slice(), &trail, places, from)?;
        Ok(List::from_vec(targets))
    }

    /// Whether a listed demand's condition names a variable. Only such variables have edges to others.
    pub fn names(&self, v: Var) -> bool
        ensures { result ≡ list_any (names v) self.now.listed }
    {
        self.watchers.names(v)
    }
}

fn is_open(goals: &Goals, trail: &Trail, v: Var) -> bool
    ensures { result ≡ (has (vars_at goals.now.said) v && is_none (value_in trail.now v)) }
{
    goals.names(v) && !trail.has(v)
}

// Truncates the mentions of active demands, and closes the variables that only the removed ones opened.
fn forget(goals: &mut Goals, trail: &Trail, len: usize)
    requires { AreOpen goals.old.said trail.now goals.old.row.linked }
    ensures active { goals.new.said ≡ take len goals.old.said }
    ensures opened { AreOpen goals.new.said trail.now goals.new.row.linked }
    ensures kept { StayKept (is_chosen_in trail.now) goals.old.row goals.new.row }
{
    while goals.len() > len {
        forget_last(goals, trail);
    }
}

fn forget_last(goals: &mut Goals, trail: &Trail)
    requires { AreOpen goals.old.said trail.now goals.old.row.linked }
    ensures active { (front : List Mention) (m : Mention) → goals.old.said ≡ front ++ m ∷ [] → goals.new.said ≡ front }
    ensures opened { AreOpen goals.new.said trail.now goals.new.row.linked }
    ensures kept { StayKept (is_chosen_in trail.now) goals.old.row goals.new.row }
{
    let len = goals.len();
    if len == 0 {
        return;
    }
    let entry = goals.entry_at(len - 1);
    let _ = goals.pop();
    if goals.names_entry(entry) {
        return;
    }
    if trail.has(goals.var_of(entry)) {
        return;
    }
    goals.take_out(entry);
}

fn pop_mark(marks: &mut Vec<Mark>) -> Option<Mark>
    ensures { MatchOption result ((marks.old.items ≡ []) × (marks.new.items ≡ []))
        (λ last. marks.old.items ≡ marks.new.items ++ last ∷ []) }
{
    marks.pop()
}

fn add_level(
    alloc: Global,
    trail: &mut Trail,
    marks: &mut Vec<Mark>,
    c: Choice,
    mark: Mark,
) -> Result<(), NoMemory>
    requires { value_in trail.old c.var ≡ None }
    ensures ok { OnOk result ((trail.new ≡ trail.old ++ c ∷ []) × (marks.new.items ≡ marks.old.items ++ mark ∷ [])) }
    ensures err { OnErr result ((trail.new ≡ trail.old) × (marks.new.items ≡ marks.old.items)) }
{
    marks.reserve(1)?;
    trail.push(alloc, c)?;
    let _ = marks.push(mark);
    Ok(())
}
