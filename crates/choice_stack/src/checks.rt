// Queries on demands under the choices so far.
ghost use Rattle.std.specs.Prelude.{◌≡◌, ◌<◌, ◌++◌, ◌&&◌, List, Some, None, IfSome, IfOk, OnOk};
ghost use Rattle.std.specs.Prelude.{[], cond, length, filter, find, option_to_list};
ghost use Rattle.std.specs.Option.{option_map};
ghost use Rattle.std.specs.List.{list_all};
ghost use Rattle.choice_problem.specs.declared.problem.Demand.{Demand};
ghost use Rattle.choice_problem.specs.Assignment.{is_made, is_yes};
ghost use Rattle.choice_problem.specs.Active.{vars_of, vars_of_first};
ghost use Rattle.choice_problem.specs.Conflict.{is_broken, named_by, refuses, set_of_first};
ghost use Rattle.choice_problem.specs.ConflictSet.{set_of};
ghost use Rattle.choice_problem.specs.Trail.{value_in};
ghost use Rattle.choice_stack.specs.Stack.{AllBelow, are_naming, demand_at, demands_at, is_owned_by, is_turned, turned};
ghost use Rattle.choice_stack.specs.Stack.{owners_of, place_turned, source_on, sources_on, target_by, targets_by};
ghost use Rattle.demand_cycles.specs.Cycles.{owner_of};

use choice_problem::{Choice, ConflictSet, Demand, Values, Var, is_same, push_named};
use demand_cycles::push_owner;
use goal_links::MentionPlaces;
use plan_types::NoMemory;
use std::alloc::Global;

// The most owners that count as few.
const FEW: usize = 8;

pub(crate) fn refuses(c: Choice, d: &Demand) -> bool
    ensures { result ≡ refuses c d.now }
{
    is_same(d.target, c.var) && !d.allowed.as_slice().contains(&c.val)
}

fn is_broken(trail: &Values<'_>, d: &Demand) -> bool
    ensures { result ≡ is_broken trail.now d.now }
{
    match trail.value_of(d.target) {
        Some(n) => !d.allowed.as_slice().contains(&n),
        None => false,
    }
}

/// The first of the demands at these places that refuses a choice.
pub(crate) fn first_refusing(
    listed: &[Demand],
    places: MentionPlaces<'_>,
    c: Choice,
) -> Option<usize>
    requires { AllBelow (length listed.now) places }
    ensures found { find (refuses c) (demands_at listed.now places.entry) ≡ option_map (demand_at listed.now) result }
    ensures within { IfSome result (λ place. place < length listed.now) }
{
    for place in places {
        if refuses(c, demand_in(listed, place)) {
            return Some(place);
        }
    }
    None
}

/// The first of the demands at these places that the choices break.
pub(crate) fn first_broken(listed: &[Demand], places: &[usize], trail: &Values<'_>) -> Option<usize>
    requires { AllBelow (length listed.now) places.now }
    ensures found { find (is_broken trail.now) (demands_at listed.now places.now)
        ≡ option_map (demand_at listed.now) result }
    ensures within { IfSome result (λ place. place < length listed.now) }
{
    for place in places {
        if is_broken(trail, demand_in(listed, *place)) {
            return Some(*place);
        }
    }
    None
}

/// The set of the variables that the demand at the place names, if a place is given.
pub(crate) fn set_at(
    alloc: Global,
    listed: &[Demand],
    place: Option<usize>,
) -> Result<Option<ConflictSet>, NoMemory>
    requires { IfSome place (λ k. k < length listed.now) }
    ensures { IfOk result (λ set. set ≡ set_of_first (option_map (demand_at listed.now) place)) }
{
    match place {
        Some(place) => {
            let set = set_named_by(alloc, &listed[place])?;
            Ok(Some(set))
        }
        None => Ok(None),
    }
}

fn set_named_by(alloc: Global, d: &Demand) -> Result<ConflictSet, NoMemory>
    ensures { IfOk result (λ set. set ≡ set_of (named_by d.now)) }
{
    if let [owner] = d.when.as_slice() {
        let set = ConflictSet::of(alloc, &[d.target, owner.var])?;
        return Ok(set);
    }
    let mut named = Vec::new(alloc);
    push_named(&mut named, d)?;
    let set = ConflictSet::of(alloc, named.as_slice())?;
    Ok(set)
}

fn vars_of(alloc: Global, when: &[Choice]) -> Result<Vec<Var>, NoMemory>
    ensures { IfOk result (λ vars. vars.items ≡ vars_of when.now) }
{
    let vars = when.iter().map(|c| c.var).collect(alloc)?;
    Ok(vars)
}

/// The set of the variables of the condition of the demand at the place, if a place is given.
pub(crate) fn reason_at(
    alloc: Global,
    listed: &[Demand],
    place: Option<usize>,
) -> Result<ConflictSet, NoMemory>
    requires { IfSome place (λ k. k < length listed.now) }
    ensures { IfOk result (λ set. set ≡ set_of (vars_of_first (option_map (demand_at listed.now) place))) }
{
    match place {
        Some(place) => {
            let vars = vars_of(alloc, listed[place].when.as_slice())?;
            let set = ConflictSet::of(alloc, vars.as_slice())?;
            Ok(set)
        }
        None => Ok(ConflictSet::new(alloc)),
    }
}

pub(crate) fn yes_among(
    alloc: Global,
    listed: &[Demand],
    trail: &Values<'_>,
    places: MentionPlaces<'_>,
) -> Result<Vec<usize>, NoMemory>
    requires { AllBelow (length listed.now) places }
    ensures { IfOk result (λ found. found.items
        ≡ filter (λ k. is_yes (value_in trail.now) (demand_at listed.now k)) places.entry) }
{
    let mut found = Vec::new(alloc);
    for place in places {
        if is_yes(trail, demand_in(listed, place)) {
            found.push(place)?;
        }
    }
    Ok(found)
}

fn is_yes(trail: &Values<'_>, d: &Demand) -> bool
    ensures { result ≡ is_yes (value_in trail.now) d.now }
{
    are_made(trail, d.when.as_slice())
}

fn is_made(trail: &Values<'_>, c: Choice) -> bool
    ensures { result ≡ is_made (value_in trail.now) c }
{
    match trail.value_of(c.var) {
        Some(n) => n == c.val,
        None => false,
    }
}

/// The places of the demands that name a variable and are Yes.
pub(crate) fn turned_among(
    alloc: Global,
    demands: &[Demand],
    trail: &Values<'_>,
    v: Var,
) -> Result<Vec<usize>, NoMemory>
    ensures demands { IfOk result (λ found. demands_at demands.now found.items ≡ turned trail.now v demands.now) }
    ensures within { IfOk result (λ found. AllBelow (length demands.now) found.items) }
{
    let mut found = Vec::new(alloc);
    let count = demands.len();
    for place in 0..count {
        push_turned(&mut found, demands, trail, place, v)?;
    }
    Ok(found)
}

fn push_turned(
    found: &mut Vec<usize>,
    demands: &[Demand],
    trail: &Values<'_>,
    place: usize,
    v: Var,
) -> Result<(), NoMemory>
    requires { place < length demands.now }
    ensures { OnOk result (found.new.items ≡ found.old.items ++ place_turned trail.now v demands.now place) }
{
    let demand = demand_in(demands, place);
    if is_turned(demand, trail, v) {
        found.push(place)?;
    }
    Ok(())
}

fn is_turned(demand: &Demand, trail: &Values<'_>, v: Var) -> bool
    ensures { result ≡ is_turned trail.now v demand.now }
{
    if !are_naming(demand.when.as_slice(), v) {
        return false;
    }
    is_yes(trail, demand)
}

/// Whether any of the choices is of the variable.
pub(crate) fn are_naming(choices: &[Choice], v: Var) -> bool
    ensures { result ≡ are_naming v choices.now }
{
    choices.iter().any(|c| is_same(c.var, v))
}

pub(crate) fn owners_at(
    alloc: Global,
    listed: &[Demand],
    places: MentionPlaces<'_>,
) -> Result<Vec<Var>, NoMemory>
    requires { AllBelow (length listed.now) places }
    ensures { IfOk result (λ owners. owners.items ≡ owners_of (demands_at listed.now places.entry)) }
{
    let mut owners = Vec::new(alloc);
    for place in places {
        push_owner_at(&mut owners, listed, place)?;
    }
    Ok(owners)
}

/// The same, or nothing where there are many.
pub(crate) fn few_owners_at(
    alloc: Global,
    listed: &[Demand],
    places: MentionPlaces<'_>,
) -> Result<Option<Vec<Var>>, NoMemory>
    requires { AllBelow (length listed.now) places }
    ensures { IfOk result (λ few. IfSome few
        (λ owners. owners.items ≡ owners_of (demands_at listed.now places.entry))) }
{
    let mut owners = Vec::new(alloc);
    for place in places {
        if owners.len() == FEW {
            return Ok(None);
        }
        push_owner_at(&mut owners, listed, place)?;
    }
    Ok(Some(owners))
}

fn push_owner_at(owners: &mut Vec<Var>, listed: &[Demand], place: usize) -> Result<(), NoMemory>
    requires { place < length listed.now }
    ensures { OnOk result (owners.new.items
        ≡ owners.old.items ++ option_to_list (owner_of (demand_at listed.now place))) }
{
    push_owner(owners, &listed[place])?;
    Ok(())
}

/// Appends the owners of the demands on a variable, among those at these places.
pub(crate) fn push_owners_on(
    owners: &mut Vec<Var>,
    listed: &[Demand],
    places: &[usize],
    to: Var,
) -> Result<(), NoMemory>
    requires { AllBelow (length listed.now) places.now }
    ensures { OnOk result (owners.new.items ≡ owners.old.items ++ sources_on to (demands_at listed.now places.now)) }
{
    for place in places {
        push_owner_on(owners, listed, *place, to)?;
    }
    Ok(())
}

fn push_owner_on(
    owners: &mut Vec<Var>,
    listed: &[Demand],
    place: usize,
    to: Var,
) -> Result<(), NoMemory>
    requires { place < length listed.now }
    ensures { OnOk result (owners.new.items ≡ owners.old.items ++ source_on to (demand_at listed.now place)) }
{
    let demand = demand_in(listed, place);
    if is_same(demand.target, to) {
        push_owner(owners, demand)?;
    }
    Ok(())
}

/// The targets of the demands that a variable owns, among those at these places.
pub(crate) fn targets_at(
    alloc: Global,
    listed: &[Demand],
    places: &[usize],
    owner: Var,
) -> Result<Vec<Var>, NoMemory>
    requires { AllBelow (length listed.now) places.now }
    ensures { IfOk result (λ targets. targets.items ≡ targets_by owner (demands_at listed.now places.now)) }
{
    let mut targets = Vec::new(alloc);
    for place in places {
        let demand = demand_in(listed, *place);
        if is_owned_by(demand, owner) {
            targets.push(demand.target)?;
        }
    }
    Ok(targets)
}

/// The targets of the demands that a variable owns and that are Yes, among those at these places.
pub(crate) fn yes_targets_at(
    alloc: Global,
    listed: &[Demand],
    trail: &Values<'_>,
    places: MentionPlaces<'_>,
    owner: Var,
) -> Result<Vec<Var>, NoMemory>
    requires { AllBelow (length listed.now) places }
    ensures { IfOk result (λ targets. targets.items ≡ targets_by owner
        (demands_at listed.now (filter (λ k. is_yes (value_in trail.now) (demand_at listed.now k)) places.entry))) }
{
    let mut targets = Vec::new(alloc);
    let value = trail.value_of(owner);
    for place in places {
        push_yes_target(&mut targets, demand_in(listed, place), trail, owner, value)?;
    }
    Ok(targets)
}

fn push_yes_target(
    targets: &mut Vec<Var>,
    demand: &Demand,
    trail: &Values<'_>,
    owner: Var,
    value: Option<u64>,
) -> Result<(), NoMemory>
    requires { value ≡ value_in trail.now owner }
    ensures { OnOk result (targets.new.items
        ≡ targets.old.items ++ cond (is_yes (value_in trail.now) demand.now) (target_by owner demand.now) []) }
{
    if is_owned_and_yes(demand, trail, owner, value) {
        targets.push(demand.target)?;
    }
    Ok(())
}

// The owner's value is looked up once for all demands.
fn is_owned_and_yes(demand: &Demand, trail: &Values<'_>, owner: Var, value: Option<u64>) -> bool
    requires { value ≡ value_in trail.now owner }
    ensures { result ≡ (is_owned_by owner demand.now && is_yes (value_in trail.now) demand.now) }
{
    let [first, others @ ..] = demand.when.as_slice() else {
        return false;
    };
    if !is_same(first.var, owner) {
        return false;
    }
    match value {
        Some(n) => n == first.val && are_made(trail, others),
        None => false,
    }
}

fn are_made(trail: &Values<'_>, choices: &[Choice]) -> bool
    ensures { result ≡ list_all (is_made (value_in trail.now)) choices.now }
{
    choices.iter().all(|c| is_made(trail, *c))
}

fn is_owned_by(demand: &Demand, owner: Var) -> bool
    ensures { result ≡ is_owned_by owner demand.now }
{
    match demand.when.as_slice() {
        [first, ..] => is_same(first.var, owner),
        [] => false,
    }
}

pub(crate) fn demand_in(listed: &[Demand], place: usize) -> &Demand
    requires { place < length listed.now }
    ensures { result.now ≡ demand_at listed.now place }
{
    &listed[place]
}
