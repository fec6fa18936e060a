// The nodes that reach a marked node.
ghost use Rattle.std.specs.Prelude.{◌≡◌, ◌+◌, ◌<◌, ◌≤◌, ◌⊎◌, ◌↔◌, ℕ, [], length, true, false, not, Contains, IfOk, OnOk, count_by, slice_index_or};
ghost use Rattle.broken_units.specs.Leads.{IsUser, ReachesMarked, MarksMore, NewlyMarkedWait};
ghost use Rattle.common_laws.specs.Graphs.{IsMarked, Needs};

use crate::users::users_of;
use plan_types::{List, NoMemory};
use std::alloc::Global;

/// Which nodes are marked or reach a marked node.
pub fn leading(
    alloc: Global,
    needs: &[List<usize>],
    marked: &[bool],
) -> Result<List<bool>, NoMemory>
    requires { length marked.now ≡ length needs.now }
    ensures length { IfOk result (λ led. length led ≡ length needs.now) }
    ensures leads { IfOk result (λ led. (i : ℕ) → IsMarked led i ↔ ReachesMarked needs.now marked.now i) }
{
    let users = users_of(alloc, needs)?;
    let mut led = List::from_vec(marked.to_vec(alloc)?);
    let mut waiting = places(alloc, marked)?;
    while let Some(node) = waiting.pop() {
        mark_all(users_at(users.as_slice(), node), &mut led, &mut waiting)?;
    }
    Ok(led)
}

fn users_at(users: &[List<usize>], node: usize) -> &[usize]
    ensures { result.now ≡ slice_index_or users.now node [] }
{
    match users.get(node) {
        Some(list) => list.as_slice(),
        None => &[],
    }
}

// The marked nodes.
fn places(alloc: Global, marked: &[bool]) -> Result<List<usize>, NoMemory>
    ensures { IfOk result (λ found. (i : ℕ) → Contains found i ↔ IsMarked marked.now i) }
{
    let mut found = List::new(alloc);
    for place in 0..marked.len() {
        if marked[place] {
            found.push(place)?;
        }
    }
    Ok(found)
}

// Marks nodes, and pushes the newly marked ones.
fn mark_all(
    nodes: &[usize],
    led: &mut List<bool>,
    waiting: &mut List<usize>,
) -> Result<(), NoMemory>
    ensures length { OnOk result (length led.new ≡ length led.old) }
    ensures marked { OnOk result (MarksMore (Contains nodes.now) led.old led.new) }
    ensures waiting { OnOk result (NewlyMarkedWait led.old led.new waiting.old waiting.new) }
    ensures less { OnOk result (count_by not led.new + length waiting.new ≡ count_by not led.old + length waiting.old) }
{
    for node in nodes {
        mark(*node, led, waiting)?;
    }
    Ok(())
}

fn mark(node: usize, led: &mut List<bool>, waiting: &mut List<usize>) -> Result<(), NoMemory>
    ensures length { OnOk result (length led.new ≡ length led.old) }
    ensures marked { OnOk result (MarksMore (λ i. i ≡ node) led.old led.new) }
    ensures waiting { OnOk result (NewlyMarkedWait led.old led.new waiting.old waiting.new) }
    ensures less { OnOk result (count_by not led.new + length waiting.new ≡ count_by not led.old + length waiting.old) }
{
    if node >= led.len() || led.as_slice()[node] {
        return Ok(());
    }
    led.set(node, true);
    waiting.push(node)
}
