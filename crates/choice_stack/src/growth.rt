// Additions of a choice to a stack. All memory is allocated first, and then the ready mentions are appended.
ghost use Rattle.std.specs.Prelude.{◌≡◌, true, ◌+◌, ◌<◌, ◌≤◌, ◌++◌, IfOk, List, length, take, drop, vec_capacity, vec_len};
ghost use Rattle.goal_links.specs.Mentions.{mention_of};
ghost use Rattle.choice_stack.specs.Open.{StayKept, any_var, is_chosen_in};
ghost use Rattle.choice_stack.specs.Growth.{IsReady, mentions_at};
ghost use Rattle.choice_stack.specs.Stack.{AllBelow, AreOpen, are_once, demand_at, watchers_by, watchers_from};

use crate::checks::{are_naming, demand_in};
use crate::goals::Goals;
use choice_problem::{Choice, Demand, Trail};
use goal_links::{Mention, Mentions};
use indexmap::IndexSet;
use plan_types::{List, NoMemory};
use std::alloc::Global;

// The most choices of a condition in which each variable is looked for in those behind it.
const SHORT: usize = 16;

/// The numbers of ready mentions: of variables that demands wait for, and of targets of demands that become active.
#[derive(Clone, Copy, Debug, Drop)]
pub(crate) struct Ready {
    pub(crate) waiting: usize,
    pub(crate) active: usize,
}

/// Allocates the memory to list more demands, and to make the demands at these places active: `woken` are places of
/// listed demands, and `fresh` are places of new ones.
pub(crate) fn make_ready(
    listed: &mut Vec<Demand>,
    watchers: &mut Mentions,
    goals: &mut Goals,
    demands: &[Demand],
    woken: &[usize],
    fresh: &[usize],
) -> Result<Ready, NoMemory>
    requires woken { AllBelow (length listed.old.items) woken.now }
    requires fresh { AllBelow (length demands.now) fresh.now }
    ensures listed { listed.new.items ≡ listed.old.items }
    ensures watchers { watchers.new.said ≡ watchers.old.said }
    ensures said { goals.new.said ≡ goals.old.said }
    ensures linked { goals.new.row.linked ≡ goals.old.row.linked }
    ensures kept { StayKept any_var goals.old.row goals.new.row }
    ensures ready { IfOk result
        (IsReady listed.new.items watchers.new.spare goals.new.spare demands.now woken.now fresh.now) }
    ensures room { IfOk result (λ ready. vec_len listed.new + length demands.now ≤ vec_capacity listed.new) }
{
    let alloc = *listed.allocator();
    let first = listed.len();
    listed.reserve(demands.len())?;
    let waiting = ready_watchers(alloc, watchers, first, demands)?;
    let known = ready_goals(goals, 0, 0, listed.as_slice(), woken)?;
    let active = ready_goals(goals, known, first, demands, fresh)?;
    Ok(Ready { waiting, active })
}

// Makes the mentions ready of the variables that the new demands will wait for. These will be listed from `first` on.
// Returns the number of these mentions.
fn ready_watchers(
    alloc: Global,
    watchers: &mut Mentions,
    first: usize,
    demands: &[Demand],
) -> Result<usize, NoMemory>
    ensures said { watchers.new.said ≡ watchers.old.said }
    ensures waiting { IfOk result (λ count. take count watchers.new.spare ≡ watchers_from first demands.now) }
    ensures within { IfOk result (λ count. count ≤ length watchers.new.spare) }
{
    let mut count = 0;
    let len = demands.len();
    for index in 0..len {
        let demand = demand_in(demands, index);
        let place = sum(first, index)?;
        count = ready_watchers_of(alloc, watchers, count, place, demand.when.as_slice())?;
    }
    Ok(count)
}

// Makes ready, behind the first `before` mentions, one mention for each variable of a demand's condition.
fn ready_watchers_of(
    alloc: Global,
    watchers: &mut Mentions,
    before: usize,
    place: usize,
    when: &[Choice],
) -> Result<usize, NoMemory>
    requires { before ≤ length watchers.old.spare }
    ensures said { watchers.new.said ≡ watchers.old.said }
    ensures waiting { IfOk result (λ count. take count watchers.new.spare
        ≡ take before watchers.old.spare ++ watchers_by place when.now) }
    ensures within { IfOk result (λ count. count ≤ length watchers.new.spare) }
{
    let once = are_surely_once(alloc, when)?;
    let mut count = before;
    let mut rest = when;
    while let [c, tail @ ..] = rest {
        if once || !are_naming(tail, c.var) {
            count = watchers.prepare(count, Mention { var: c.var, place })?;
        }
        rest = tail;
    }
    Ok(count)
}

// Whether a long condition names each variable once, in time linear in its length. A short one isn't looked at.
fn are_surely_once(alloc: Global, when: &[Choice]) -> Result<bool, NoMemory>
    ensures { IfOk result (λ once. once ≡ true → are_once when.now ≡ true) }
{
    if when.len() <= SHORT {
        return Ok(false);
    }
    let mut behind = IndexSet::new(alloc);
    let mut place = when.len();
    while place > 0 {
        place -= 1;
        if !behind.insert(when[place].var)? {
            return Ok(false);
        }
    }
    Ok(true)
}

// Makes ready, behind the first `before` mentions, the targets of the demands at these places, numbered from `first`.
fn ready_goals(
    goals: &mut Goals,
    before: usize,
    first: usize,
    demands: &[Demand],
    places: &[usize],
) -> Result<usize, NoMemory>
    requires before { before ≤ length goals.old.spare }
    requires within { AllBelow (length demands.now) places.now }
    ensures said { goals.new.said ≡ goals.old.said }
    ensures linked { goals.new.row.linked ≡ goals.old.row.linked }
    ensures kept { StayKept any_var goals.old.row goals.new.row }
    ensures active { IfOk result (λ count. take count goals.new.spare
        ≡ take before goals.old.spare ++ mentions_at first demands.now places.now) }
    ensures within { IfOk result (λ count. count ≤ length goals.new.spare) }
{
    let mut count = before;
    for place in places {
        let mention = mention_at(first, demands, *place)?;
        count = goals.prepare(count, mention)?;
    }
    Ok(count)
}

fn mention_at(first: usize, demands: &[Demand], place: usize) -> Result<Mention, NoMemory>
    requires { place < length demands.now }
    ensures { IfOk result (λ mention. mention ≡ mention_of (demand_at demands.now place).target (first + place)) }
{
    let var = demand_in(demands, place).target;
    let place = sum(first, place)?;
    Ok(Mention { var, place })
}

// A sum that overflows is out of memory.
fn sum(m: usize, n: usize) -> Result<usize, NoMemory>
    ensures { IfOk result (λ sum. sum ≡ m + n) }
{
    match m.checked_add(n) {
        Some(sum) => Ok(sum),
        None => Err(NoMemory),
    }
}

/// Appends demands to the list, which has the capacity.
pub(crate) fn list_all(listed: &mut Vec<Demand>, demands: List<Demand>)
    requires { vec_len listed.old + length demands ≤ vec_capacity listed.old }
    ensures { listed.new.items ≡ listed.old.items ++ demands }
{
    for d in demands.into_vec() {
        let _ = listed.push(d);
    }
}

/// Makes the demands with ready mentions active, and opens each target without a value that isn't open.
pub(crate) fn activate(goals: &mut Goals, trail: &Trail, count: usize)
    requires ready { count ≤ length goals.old.spare }
    requires opened { AreOpen goals.old.said trail.now goals.old.row.linked }
    ensures active { goals.new.said ≡ goals.old.said ++ take count goals.old.spare }
    ensures opened { AreOpen goals.new.said trail.now goals.new.row.linked }
    ensures kept { StayKept (is_chosen_in trail.now) goals.old.row goals.new.row }
{
    for _ in 0..count {
        activate_next(goals, trail);
    }
}

fn activate_next(goals: &mut Goals, trail: &Trail)
    requires ready { 0 < length goals.old.spare }
    requires opened { AreOpen goals.old.said trail.now goals.old.row.linked }
    ensures active { goals.new.said ≡ goals.old.said ++ take 1 goals.old.spare }
    ensures spare { goals.new.spare ≡ drop 1 goals.old.spare }
    ensures opened { AreOpen goals.new.said trail.now goals.new.row.linked }
    ensures kept { StayKept (is_chosen_in trail.now) goals.old.row goals.new.row }
{
    let entry = goals.entry_at(goals.len());
    let is_named = goals.names_entry(entry);
    goals.take_up();
    if is_named {
        return;
    }
    if trail.has(goals.var_of(entry)) {
        return;
    }
    goals.add(entry);
}
