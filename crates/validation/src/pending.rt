// The stack that a choice would make.
ghost use Rattle.std.specs.Prelude.{◌≡◌, ◌+◌, ◌++◌, true, None, IfOk, OnOk, length, take};
ghost use Rattle.choice_problem.specs.Conflict.{agreement_set, first_clash, set_of_first};
ghost use Rattle.choice_problem.specs.Trail.{value_in};
ghost use Rattle.choice_stack.specs.Addition.{IsAddition};
ghost use Rattle.demand_agreement.specs.Clashes.{AreSuspects};
ghost use Rattle.validation.specs.Pending.{AreOwned, IsFirstInstance, count_before, first_broken, place_if};
ghost use Rattle.choice_stack.specs.Stack.{AllBelow, IsSettled, front_of, made, sources_on, targets_by};

use choice_problem::{ConflictSet, Demand, Trail, Var, is_same};
use choice_stack::{Addition, Picked, Stack, push_range};
use demand_agreement::{Asked, agreement_set_of};
use demand_cycles::Graph;
use plan_types::{List, NoMemory};
use qualified_goals::Part;
use std::alloc::Global;
use std::marker::Model;

/// A stack, and the addition of a choice of an open variable. It is seen as the stack that the choice would make.
#[derive(Drop)]
pub(crate) struct Pending<'a> {
    stack: &'a Stack,
    addition: &'a Addition,
    // The listed demands that would become Yes, and those of the choice that would be Yes at once.
    woken: Picked<'a>,
    fresh: Picked<'a>,
    // The number of demands that would be active.
    count: usize,
}

impl<'a> Model for Pending<'a> {
    ghost use Rattle.validation.specs.View.{View};
    ghost use Rattle.validation.specs.Pending.{ArePending};
    ghost use Rattle.choice_stack.specs.Stack.{made};

    ghost Value = { View };

    ghost view = { λ p. made p.stack.now p.addition.now.choice p.addition.now.demands };

    ghost invariant = { λ p. ArePending p.stack.now p.addition.now p.woken p.fresh p.count };
}

impl<'a> Pending<'a> {
    pub(crate) fn of(stack: &'a Stack, addition: &'a Addition) -> Result<Pending<'a>, NoMemory>
        requires free { value_in stack.now.trail addition.now.choice.var ≡ None }
        requires settled { IsSettled stack.now }
        requires owned { AreOwned addition.now.choice.var addition.now.demands }
        requires turned { IsAddition stack.now addition.now }
        ensures { IfOk result (λ pending. pending ≡ made stack.now addition.now.choice addition.now.demands) }
    {
        let woken = Picked::of(stack.listed(), addition.woken.as_slice());
        let fresh = Picked::of(addition.demands.as_slice(), addition.fresh.as_slice());
        let count = total(stack.count(), woken.len(), fresh.len())?;
        Ok(Pending {
            stack,
            addition,
            woken,
            fresh,
            count,
        })
    }

    /// The number of demands active before the choice.
    pub(crate) fn before(&self) -> usize
        ensures { result ≡ count_before self.now }
    {
        self.stack.count()
    }

    /// The set of the first demand that would become active and be broken.
    pub(crate) fn broken(&self, alloc: Global) -> Result<Option<ConflictSet>, NoMemory>
        ensures { IfOk result (λ set. set ≡ set_of_first (first_broken self.now)) }
    {
        let trail = self.stack.values_with(self.addition.choice);
        if let Some(set) = self.woken.broken(alloc, &trail)? {
            return Ok(Some(set));
        }
        let set = self.fresh.broken(alloc, &trail)?;
        Ok(set)
    }
}

impl<'a> Pending<'a> {
    /// The set of the first two demands that disagree, where none disagreed before the choice. One of them is
    /// a demand that would become active, or one on the variable of the choice.
    pub(crate) fn disagreement(&self, alloc: Global) -> Result<Option<ConflictSet>, NoMemory>
        requires { first_clash (front_of self.now.trail) (take (count_before self.now) self.now.active) ≡ None }
        ensures { IfOk result (λ set. set ≡ agreement_set self.now.trail self.now.active) }
    {
        let trail = self.stack.values_with(self.addition.choice);
        let places = self.suspects(alloc)?;
        let set = agreement_set_of(alloc, self, &trail, places.as_slice())?;
        Ok(set)
    }

    // The places of the demands that may disagree with others. The first instance of a package has no twin, nor do its
    // demands.
    fn suspects(&self, alloc: Global) -> Result<Vec<usize>, NoMemory>
        requires { first_clash (front_of self.now.trail) (take (count_before self.now) self.now.active) ≡ None }
        ensures within { IfOk result (λ places. AllBelow (length self.now.active) places.items) }
        ensures suspects { IfOk result (λ places. AreSuspects self.now.trail self.now.active places.items) }
    {
        let var = self.addition.choice.var;
        let before = self.stack.count();
        if is_first_instance(self.stack.trail(), var) {
            let mut places = Vec::new(alloc);
            push_range(&mut places, before, self.count - self.fresh.len())?;
            return Ok(places);
        }
        let mut places = self.stack.places_on(alloc, var)?;
        push_range(&mut places, before, self.count)?;
        Ok(places)
    }
}

// Whether a variable is a package's instance, and none of that package is chosen.
fn is_first_instance(trail: &Trail, v: Var) -> bool
    ensures { result ≡ true → IsFirstInstance trail.now v }
{
    match v.part {
        Part::Package => trail.instances_of(v.package).is_empty(),
        Part::Flag(_) | Part::Tests | Part::Benches => false,
    }
}

impl<'a> Graph for Pending<'a> {
    ghost demands = { λ s. s.active };

    fn count(&self) -> usize {
        self.count
    }

    fn demand(&self, place: usize) -> &Demand {
        let before = self.stack.count();
        if place < before {
            return self.stack.demand(place);
        }
        let index = place - before;
        let count = self.woken.len();
        if index < count {
            return self.woken.at(index);
        }
        self.fresh.at(index - count)
    }

    fn sources(&self, alloc: Global, to: Var) -> Result<List<Var>, NoMemory> {
        let found = self.stack.sources(alloc, to)?;
        let all = with_sources(found, &self.woken, &self.fresh, to)?;
        Ok(all)
    }

    fn few_sources(&self, alloc: Global, to: Var) -> Result<Option<List<Var>>, NoMemory> {
        let Some(found) = self.stack.few_sources(alloc, to)? else {
            return Ok(None);
        };
        let all = with_sources(found, &self.woken, &self.fresh, to)?;
        Ok(Some(all))
    }

    fn targets(&self, alloc: Global, from: Var) -> Result<List<Var>, NoMemory> {
        let found = self.stack.targets(alloc, from)?;
        let woken = self.woken.targets(alloc, from)?;
        let fresh = targets_within(alloc, &self.fresh, self.addition.choice.var, from)?;
        let all = joined(found, woken, fresh)?;
        Ok(all)
    }

    fn is_chosen(&self, v: Var) -> bool {
        if is_same(self.addition.choice.var, v) {
            return true;
        }
        self.stack.names(v)
    }
}

impl<'a> Asked for Pending<'a> {
    ghost demands = { λ s. s.active };

    fn demand_at(&self, place: usize) -> &Demand {
        self.demand(place)
    }

    fn places_on(&self, alloc: Global, v: Var) -> Result<Vec<usize>, NoMemory> {
        let mut found = self.stack.places_on(alloc, v)?;
        for place in self.stack.count()..self.count {
            push_on(&mut found, self.demand(place), place, v)?;
        }
        Ok(found)
    }
}

fn push_on(found: &mut Vec<usize>, d: &Demand, place: usize, v: Var) -> Result<(), NoMemory>
    ensures { OnOk result (found.new.items ≡ found.old.items ++ place_if place v d.now) }
{
    if is_same(d.target, v) {
        found.push(place)?;
    }
    Ok(())
}

// Some variables, and the owners of the demands on a variable among those that would become active.
fn with_sources(
    found: List<Var>,
    woken: &Picked<'_>,
    fresh: &Picked<'_>,
    to: Var,
) -> Result<List<Var>, NoMemory>
    ensures { IfOk result (λ all. all ≡ found ++ (sources_on to woken.now ++ sources_on to fresh.now)) }
{
    let mut all = found.into_vec();
    woken.push_sources(&mut all, to)?;
    fresh.push_sources(&mut all, to)?;
    Ok(List::from_vec(all))
}

// The targets of the demands that a variable owns. All the demands have one owner.
fn targets_within(
    alloc: Global,
    demands: &Picked<'_>,
    owner: Var,
    from: Var,
) -> Result<List<Var>, NoMemory>
    requires { AreOwned owner demands.now }
    ensures { IfOk result (λ found. found ≡ targets_by from demands.now) }
{
    if !is_same(owner, from) {
        return Ok(List::new(alloc));
    }
    let found = demands.targets(alloc, from)?;
    Ok(found)
}

fn joined(first: List<Var>, second: List<Var>, third: List<Var>) -> Result<List<Var>, NoMemory>
    ensures { IfOk result (λ all. all ≡ first ++ (second ++ third)) }
{
    let mut all = first;
    let mut more = second;
    let mut last = third;
    more.append(&mut last)?;
    all.append(&mut more)?;
    Ok(all)
}

// The sum of three counts. A sum that overflows is out of memory.
fn total(first: usize, second: usize, third: usize) -> Result<usize, NoMemory>
    ensures { IfOk result (λ sum. sum ≡ first + (second + third)) }
{
    let Some(more) = second.checked_add(third) else {
        return Err(NoMemory);
    };
    match first.checked_add(more) {
        Some(sum) => Ok(sum),
        None => Err(NoMemory),
    }
}
