// Cycles among demands.
ghost use Rattle.std.specs.Prelude.{◌≡◌, ◌+◌, ◌<◌, ◌↔◌, ◌++◌, [], ◌∷◌, List, true, Some, IfSome, IfOk, OnOk, if◌then◌else◌};
ghost use Rattle.std.specs.Prelude.{length, take, drop, slice_get, option_to_list, flat_map};
ghost use Rattle.std.specs.List.{Contains};
ghost use Rattle.qualified_goals.specs.declared.variable.Var.{Var};
ghost use Rattle.choice_problem.specs.declared.problem.Demand.{Demand};
ghost use Rattle.choice_problem.specs.ConflictSet.{has};
ghost use Rattle.choice_problem.specs.Conflict.{Edge, edges_of, named_by, lies_on_cycle, circular, set_of_all};
ghost use Rattle.demand_cycles.specs.Cycles.{HasEdge, AreAncestors, leads_to_any, owner_of, owners_on_cycles};
ghost use Rattle.demand_cycles.specs.Ring.{AreRings, IsRingOf, Tells, closes_from};
ghost use Rattle.demand_cycles.specs.Side.{IsSide, reversed};

use crate::ring::{Ring, any_closes};
use crate::side::{Side, are_apart, have_met, is_near, is_seeking};
use crate::var_set::VarSet;
use choice_problem::{ConflictSet, Demand, Var, push_named};
use plan_types::{List, NoMemory};
use std::alloc::Global;

/// Demands in order, with an edge from the owner of each to its target.
pub trait Graph {
    ghost demands: { Self → List Demand };

    /// The number of demands.
    fn count(&self) -> usize
        ensures { result ≡ length (demands self.now) };

    fn demand(&self, place: usize) -> &Demand
        requires { place < length (demands self.now) }
        ensures { slice_get (demands self.now) place ≡ Some result.now };

    /// The variables from which edges lead to this one.
    fn sources(&self, alloc: Global, to: Var) -> Result<List<Var>, NoMemory>
        ensures { IfOk result (λ found. (v : Var) →
            (Contains found v) ↔ (HasEdge (edges_of (demands self.now)) v to)) };

    /// The same, or nothing where many edges lead to it. What is many decides only what is searched first.
    fn few_sources(&self, alloc: Global, to: Var) -> Result<Option<List<Var>>, NoMemory>
        ensures { IfOk result (λ few. IfSome few (λ found. (v : Var) →
            (Contains found v) ↔ (HasEdge (edges_of (demands self.now)) v to))) };

    /// The variables to which edges from this one lead.
    fn targets(&self, alloc: Global, from: Var) -> Result<List<Var>, NoMemory>
        ensures { IfOk result (λ found. (v : Var) →
            (Contains found v) ↔ (HasEdge (edges_of (demands self.now)) from v)) };

    /// Whether a variable is chosen. Only chosen variables have edges to others.
    fn is_chosen(&self, v: Var) -> bool
        ensures { (w : Var) → HasEdge (edges_of (demands self.now)) v w → result ≡ true };
}

/// The set of the variables that the demands on cycles name, if there are any. The demands before `before` have
/// no cycle.
pub fn cycle_set_of<G: Graph>(
    alloc: Global,
    graph: &G,
    before: usize,
) -> Result<Option<ConflictSet>, NoMemory>
    requires { circular (take before (G.demands graph.now)) ≡ [] }
    ensures { IfOk result (λ found. found ≡ set_of_all (circular (G.demands graph.now))) }
{
    let owners = new_owners(alloc, graph, before)?;
    if owners.is_empty() {
        return Ok(None);
    }
    let rings = rings_of(alloc, graph, owners.as_slice())?;
    let named = named_on_cycles(alloc, graph, rings.as_slice())?;
    let set = ConflictSet::of(alloc, named.as_slice())?;
    Ok(Some(set))
}

// The owners of the demands from a place on that lie on a cycle.
fn new_owners<G: Graph>(alloc: Global, graph: &G, before: usize) -> Result<Vec<Var>, NoMemory>
    ensures { IfOk result (λ owners. owners.items
        ≡ owners_on_cycles (edges_of (G.demands graph.now)) (drop before (G.demands graph.now))) }
{
    let mut owners = Vec::new(alloc);
    let count = graph.count();
    if count <= before {
        return Ok(owners);
    }
    let mut back = Side::new(alloc, graph.demand(before).target);
    for place in before..count {
        let demand = graph.demand(place);
        if is_on_cycle(alloc, graph, &mut back, demand)? {
            push_owner(&mut owners, demand)?;
        }
    }
    Ok(owners)
}

// The variables that the demands on cycles name. The rings decide which demands these are.
fn named_on_cycles<G: Graph>(alloc: Global, graph: &G, rings: &[Ring]) -> Result<Vec<Var>, NoMemory>
    requires { Tells (G.demands graph.now) rings.now }
    ensures { IfOk result (λ named. named.items ≡ flat_map named_by (circular (G.demands graph.now))) }
{
    let mut named = Vec::new(alloc);
    let count = graph.count();
    for place in 0..count {
        let demand = graph.demand(place);
        if closes_from(rings, owner_of(demand), demand.target) {
            push_named(&mut named, demand)?;
        }
    }
    Ok(named)
}

fn closes_from(rings: &[Ring], owner: Option<Var>, target: Var) -> bool
    ensures { result ≡ closes_from rings.now owner target }
{
    match owner {
        Some(owner) => any_closes(rings, owner, target),
        None => false,
    }
}

// Rings for the variables. One that lies on a cycle of another ring needs no ring: it has the same cycles.
fn rings_of<G: Graph>(alloc: Global, graph: &G, vars: &[Var]) -> Result<Vec<Ring>, NoMemory>
    ensures { IfOk result (λ rings. AreRings (edges_of (G.demands graph.now)) vars.now rings.items) }
{
    let mut rings = Vec::new(alloc);
    for v in vars {
        if !any_closes(rings.as_slice(), *v, *v) {
            rings.push(ring_of(alloc, graph, *v)?)?;
        }
    }
    Ok(rings)
}

fn ring_of<G: Graph>(alloc: Global, graph: &G, v: Var) -> Result<Ring, NoMemory>
    ensures { IfOk result (IsRingOf (edges_of (G.demands graph.now)) v) }
{
    let ahead = reached(alloc, graph, v, true)?;
    let back = reached(alloc, graph, v, false)?;
    Ok(Ring { ahead, back })
}

/// Appends the variable of the demand's owner, if it has one.
pub fn push_owner(owners: &mut Vec<Var>, demand: &Demand) -> Result<(), NoMemory>
    ensures { OnOk result (owners.new.items ≡ owners.old.items ++ option_to_list (owner_of demand.now)) }
{
    if let [owner, ..] = demand.when.as_slice() {
        owners.push(owner.var)?;
    }
    Ok(())
}

fn owner_of(demand: &Demand) -> Option<Var>
    ensures { result ≡ owner_of demand.now }
{
    match demand.when.as_slice() {
        [owner, ..] => Some(owner.var),
        [] => None,
    }
}

// Whether the edge of a demand lies on a cycle. The search against the edges is kept for the next demand of its owner.
fn is_on_cycle<G: Graph>(
    alloc: Global,
    graph: &G,
    back: &mut Side,
    demand: &Demand,
) -> Result<bool, NoMemory>
    requires listed { Contains (G.demands graph.now) demand.now }
    requires back { IsSide (edges_of (G.demands graph.now)) back.old }
    ensures lies { IfOk result (λ lies. lies ≡ lies_on_cycle (edges_of (G.demands graph.now)) demand.now) }
    ensures back { OnOk result (IsSide (edges_of (G.demands graph.now)) back.new) }
{
    let Some(owner) = owner_of(demand) else {
        return Ok(false);
    };
    if back.is_done(owner) {
        return Ok(back.holds(demand.target));
    }
    if !graph.is_chosen(demand.target) {
        return Ok(false);
    }
    back.begin(owner);
    let lies = is_led_to(alloc, graph, back, demand.target)?;
    Ok(lies)
}

// Whether edges lead from a variable to the end of a side. The side grows until this is known. Behind what is near, it
// searches from both ends in turn. The search along edges goes first: many variables may lead to an owner whose target
// leads to few.
fn is_led_to<G: Graph>(
    alloc: Global,
    graph: &G,
    back: &mut Side,
    from: Var,
) -> Result<bool, NoMemory>
    requires { IsSide (edges_of (G.demands graph.now)) back.old }
    ensures is_led { IfOk result (λ is_led.
        is_led ≡ leads_to_any (edges_of (G.demands graph.now)) (back.old.end ∷ []) from) }
    ensures back { OnOk result (IsSide (edges_of (G.demands graph.now)) back.new) }
{
    search_near(alloc, graph, back, from)?;
    if !is_seeking(back, from) {
        return Ok(back.holds(from));
    }
    let mut ahead = Side::new(alloc, from);
    while are_apart(&ahead, back) {
        let targets = graph.targets(alloc, ahead.next())?;
        ahead.add(targets.as_slice())?;
        if is_seeking(&ahead, back.end) {
            let sources = graph.sources(alloc, back.next())?;
            back.add(sources.as_slice())?;
        }
    }
    Ok(have_met(&ahead, back))
}

// Searches against the edges while few variables are found, and few lead to the next one. This mostly ends the search:
// it begins at the last choice, to which few edges lead yet.
fn search_near<G: Graph>(
    alloc: Global,
    graph: &G,
    back: &mut Side,
    from: Var,
) -> Result<(), NoMemory>
    requires { IsSide (edges_of (G.demands graph.now)) back.old }
    ensures end { OnOk result (back.new.end ≡ back.old.end) }
    ensures back { OnOk result (IsSide (edges_of (G.demands graph.now)) back.new) }
{
    while is_near(back, from) {
        let Some(sources) = graph.few_sources(alloc, back.next())? else {
            return Ok(());
        };
        back.add(sources.as_slice())?;
    }
    Ok(())
}

// The variable begun with, and all variables that lead to it, or, ahead, all to which it leads.
fn reached<G: Graph>(alloc: Global, graph: &G, begun: Var, ahead: bool) -> Result<VarSet, NoMemory>
    ensures { IfOk result (AreAncestors
        (if ahead then reversed (edges_of (G.demands graph.now)) else edges_of (G.demands graph.now)) (begun ∷ [])) }
{
    let mut found = VarSet::of(alloc, begun);
    let mut place = 0;
    while place < found.len() {
        let next = beside(alloc, graph, found.at(place), ahead)?;
        found.add_all(next.as_slice())?;
        place += 1;
    }
    Ok(found)
}

// The variables from which an edge leads to this one, or, ahead, to which one leads from it.
fn beside<G: Graph>(alloc: Global, graph: &G, v: Var, ahead: bool) -> Result<List<Var>, NoMemory>
    ensures { IfOk result (λ found. (w : Var) → (Contains found w) ↔ (HasEdge
        (if ahead then reversed (edges_of (G.demands graph.now)) else edges_of (G.demands graph.now)) w v)) }
{
    if ahead {
        graph.targets(alloc, v)
    } else {
        graph.sources(alloc, v)
    }
}
