// The first two demands that disagree.
ghost use Rattle.std.specs.Prelude.{◌≡◌, ◌<◌, ◌++◌, true, Some, IfOk, OnOk, List, length, filter, map, slice_get};
ghost use Rattle.std.specs.List.{Contains};
ghost use Rattle.choice_problem.specs.declared.problem.Demand.{Demand};
ghost use Rattle.choice_problem.specs.Assignment.{is_yes};
ghost use Rattle.choice_problem.specs.Conflict.{agreement_set};
ghost use Rattle.choice_problem.specs.General.{owner_of};
ghost use Rattle.choice_problem.specs.Trail.{value_in};
ghost use Rattle.demand_agreement.specs.Clashes.{AreSuspects, apart_by, apart_from, clashes, clash_of, clashing};
ghost use Rattle.demand_agreement.specs.Clashes.{is_first, set_named};
ghost use Rattle.demand_agreement.specs.Places.{AllBelow, demand_at, places_on};

use crate::clash::{Clash, clash_of, least};
use crate::twins::{differ, is_alike, twins_of, under};
use choice_problem::{Choice, ConflictSet, Demand, Values, Var, is_same, push_named};
use plan_types::NoMemory;
use std::alloc::Global;

/// Demands in order.
pub trait Asked {
    ghost demands: { Self → List Demand };

    fn demand_at(&self, place: usize) -> &Demand
        requires { place < length (demands self.now) }
        ensures { slice_get (demands self.now) place ≡ Some result.now };

    /// The places of the demands on a variable.
    fn places_on(&self, alloc: Global, v: Var) -> Result<Vec<usize>, NoMemory>
        ensures { IfOk result (λ found. found.items ≡ places_on v (demands self.now)) };
}

/// The set of the variables that the first two demands that disagree name. Of any two demands that disagree, one
/// is at one of the places.
pub fn agreement_set_of<A: Asked>(
    alloc: Global,
    asked: &A,
    trail: &Values<'_>,
    places: &[usize],
) -> Result<Option<ConflictSet>, NoMemory>
    requires active { (d : Demand) → Contains (A.demands asked.now) d → is_yes (value_in trail.now) d ≡ true }
    requires within { AllBelow (length (A.demands asked.now)) places.now }
    requires suspects { AreSuspects trail.now (A.demands asked.now) places.now }
    ensures { IfOk result (λ set. set ≡ agreement_set trail.now (A.demands asked.now)) }
{
    let found = clashes(alloc, asked, trail, places)?;
    match least(found.as_slice()) {
        Some(clash) => {
            let set = set_named(alloc, asked, clash)?;
            Ok(Some(set))
        }
        None => Ok(None),
    }
}

// The set of the variables that both demands of a pair name.
fn set_named<A: Asked>(alloc: Global, asked: &A, clash: Clash) -> Result<ConflictSet, NoMemory>
    requires earlier { clash.earlier < length (A.demands asked.now) }
    requires later { clash.later < length (A.demands asked.now) }
    ensures { IfOk result (λ set. set ≡ set_named (A.demands asked.now) clash) }
{
    let mut named = Vec::new(alloc);
    push_named(&mut named, asked.demand_at(clash.earlier))?;
    push_named(&mut named, asked.demand_at(clash.later))?;
    let set = ConflictSet::of(alloc, named.as_slice())?;
    Ok(set)
}

// The pairs that disagree and have a demand at one of the places.
fn clashes<A: Asked>(
    alloc: Global,
    asked: &A,
    trail: &Values<'_>,
    places: &[usize],
) -> Result<Vec<Clash>, NoMemory>
    requires { AllBelow (length (A.demands asked.now)) places.now }
    ensures { IfOk result (λ found. found.items ≡ clashes trail.now (A.demands asked.now) places.now) }
{
    let mut found = Vec::new(alloc);
    for place in places {
        let others = clashing(alloc, asked, trail, asked.demand_at(*place))?;
        push_pairs(&mut found, *place, others.as_slice())?;
    }
    Ok(found)
}

// Adds the pairs of a place with each of the others.
fn push_pairs(found: &mut Vec<Clash>, place: usize, others: &[usize]) -> Result<(), NoMemory>
    ensures { OnOk result (found.new.items ≡ found.old.items ++ map (clash_of place) others.now) }
{
    for other in others {
        found.push(clash_of(place, *other))?;
    }
    Ok(())
}

// The places of the demands that disagree with this one.
fn clashing<A: Asked>(
    alloc: Global,
    asked: &A,
    trail: &Values<'_>,
    demand: &Demand,
) -> Result<Vec<usize>, NoMemory>
    ensures { IfOk result (λ found. found.items
        ≡ clashing trail.now (A.demands asked.now) (owner_of demand.now.when) demand.now.target) }
{
    match demand.when.as_slice() {
        [owner, ..] => apart_from(alloc, asked, trail, *owner, demand.target),
        [] => Ok(Vec::new(alloc)),
    }
}

fn apart_from<A: Asked>(
    alloc: Global,
    asked: &A,
    trail: &Values<'_>,
    owner: Choice,
    target: Var,
) -> Result<Vec<usize>, NoMemory>
    ensures { IfOk result (λ found. found.items ≡ apart_from trail.now (A.demands asked.now) owner target) }
{
    if !is_same(under(owner, target), target) {
        return Ok(Vec::new(alloc));
    }
    let twins = twins_of(alloc, trail, owner)?;
    if twins.is_empty() {
        return Ok(Vec::new(alloc));
    }
    if is_alike(trail, target) {
        return Ok(Vec::new(alloc));
    }
    let mut found = Vec::new(alloc);
    for twin in twins.as_slice() {
        push_apart(alloc, &mut found, asked, trail, target, *twin)?;
    }
    Ok(found)
}

// Adds the places of a twin's demands on the target under its own qualifier, only where the two values differ.
fn push_apart<A: Asked>(
    alloc: Global,
    found: &mut Vec<usize>,
    asked: &A,
    trail: &Values<'_>,
    target: Var,
    twin: Choice,
) -> Result<(), NoMemory>
    ensures { OnOk result (found.new.items ≡ found.old.items ++ apart_by trail.now (A.demands asked.now) target twin) }
{
    let moved = under(twin, target);
    if !differ(trail.value_of(target), trail.value_of(moved)) {
        return Ok(());
    }
    let places = asked.places_on(alloc, moved)?;
    push_owned(found, asked, places.as_slice(), twin)
}

// Adds those of the places whose demand a choice owns.
fn push_owned<A: Asked>(
    found: &mut Vec<usize>,
    asked: &A,
    places: &[usize],
    owner: Choice,
) -> Result<(), NoMemory>
    requires { AllBelow (length (A.demands asked.now)) places.now }
    ensures { OnOk result (found.new.items ≡ found.old.items
        ++ filter (λ k. is_first owner (demand_at (A.demands asked.now) k).when) places.now) }
{
    for place in places {
        if owns_at(asked, *place, owner) {
            found.push(*place)?;
        }
    }
    Ok(())
}

fn owns_at<A: Asked>(asked: &A, place: usize, owner: Choice) -> bool
    requires { place < length (A.demands asked.now) }
    ensures { result ≡ is_first owner (demand_at (A.demands asked.now) place).when }
{
    owns(owner, asked.demand_at(place))
}

fn owns(owner: Choice, demand: &Demand) -> bool
    ensures { result ≡ is_first owner demand.now.when }
{
    match demand.when.as_slice() {
        [first, ..] => is_same(first.var, owner.var) && first.val == owner.val,
        [] => false,
    }
}
