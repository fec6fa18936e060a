// A build order under construction. A node waits for the first of its needs that isn't placed. A node whose needs
// are all placed is ready. When a node is placed, those that wait for it look at their later needs.
ghost use Rattle.std.specs.Prelude.{◌≡◌, ◌<◌, ◌++◌, [], ◌∷◌, false, true, not, count_by, length, replicate, All, Contains, IfOk, OnOk, MatchOption, slice_index_or, slice_set};
ghost use Rattle.build_order.specs.Order.{IsLeastReady};
ghost use Rattle.common_laws.specs.Graphs.{IsGraph};
ghost use Rattle.build_order.specs.Building.{Alone, AreMet, IsFirstUnmet, IsSound, NoNode, WaitsOrIsReady, TakesLeast, with_wait};

use crate::ready::{add, take_least};
use plan_types::{List, NoMemory, drop_fields};
use std::alloc::Global;
use std::collections::BTreeSet;
use std::mem;

/// A node waits for its need at a place. All its earlier needs are placed.
#[derive(Clone, Copy, Drop)]
pub(crate) struct Wait {
    pub node: usize,
    pub place: usize,
}

pub(crate) struct Building {
    pub order: List<usize>,
    /// Whether each node is placed.
    pub placed: List<bool>,
    pub ready: BTreeSet<usize>,
    /// The waits for each node.
    pub waiting: Vec<List<Wait>>,
}

impl Drop for Building {
    fn drop(self) {
        drop_fields!(self; order, placed, ready, waiting);
    }
}

impl Building {
    // No node is placed, and none waits.
    fn empty(alloc: Global, nodes: usize) -> Result<Building, NoMemory>
        ensures order { IfOk result (λ b. b.order ≡ []) }
        ensures placed { IfOk result (λ b. b.placed ≡ replicate nodes false) }
        ensures ready { IfOk result (λ b. b.ready.keys ≡ []) }
        ensures waiting { IfOk result (λ b. b.waiting.items ≡ replicate nodes []) }
    {
        Ok(Building {
            order: List::new(alloc),
            placed: List::from_vec(vec![in alloc; false; nodes]?),
            ready: BTreeSet::new(alloc),
            waiting: no_waits(alloc, nodes)?,
        })
    }

    /// No node is placed, and each is ready or waits.
    pub(crate) fn new(alloc: Global, needs: &[List<usize>]) -> Result<Building, NoMemory>
        requires { IsGraph needs.now }
        ensures { IfOk result (IsSound needs.now NoNode) }
    {
        let mut building = Building::empty(alloc, needs.len())?;
        for node in 0..needs.len() {
            building.wait_or_ready(needs, node, 0)?;
        }
        Ok(building)
    }

    /// Takes out the least ready node.
    pub(crate) fn next(&mut self) -> Option<usize>
        ensures order { self.new.order ≡ self.old.order }
        ensures placed { self.new.placed ≡ self.old.placed }
        ensures waiting { self.new.waiting.items ≡ self.old.waiting.items }
        ensures least { TakesLeast self.old.ready.keys self.new.ready.keys result }
    {
        take_least(&mut self.ready)
    }

    /// Places a node. Those that waited for it become ready, or wait for a later need.
    pub(crate) fn place(
        &mut self,
        alloc: Global,
        needs: &[List<usize>],
        node: usize,
    ) -> Result<(), NoMemory>
        requires graph { IsGraph needs.now }
        requires sound { IsSound needs.now (Alone node) self.old }
        requires least { IsLeastReady needs.now self.old.order node }
        requires taken { Contains self.old.ready.keys node → ⊥ }
        ensures sound { OnOk result (IsSound needs.now NoNode self.new) }
        ensures less { OnOk result (count_by not self.new.placed < count_by not self.old.placed) }
    {
        let mut waits = self.mark(alloc, node)?;
        while let Some(wait) = waits.pop() {
            self.wait_or_ready(needs, wait.node, wait.place)?;
        }
        Ok(())
    }

    // Appends a node to the order, and takes out the waits for it.
    fn mark(&mut self, alloc: Global, node: usize) -> Result<List<Wait>, NoMemory>
        requires placed { node < length self.old.placed }
        requires waiting { node < length self.old.waiting.items }
        ensures order { OnOk result (self.new.order ≡ self.old.order ++ node ∷ []) }
        ensures placed { OnOk result (self.new.placed ≡ slice_set self.old.placed node true) }
        ensures ready { OnOk result (self.new.ready.keys ≡ self.old.ready.keys) }
        ensures waiting { OnOk result (self.new.waiting.items ≡ slice_set self.old.waiting.items node []) }
        ensures waits { IfOk result (λ waits. waits ≡ slice_index_or self.old.waiting.items node []) }
    {
        self.order.push(node)?;
        self.placed.set(node, true);
        Ok(mem::replace(&mut self.waiting[node], List::new(alloc)))
    }

    // A node waits for its first need from a place on that isn't placed; without one it becomes ready.
    fn wait_or_ready(
        &mut self,
        needs: &[List<usize>],
        node: usize,
        from: usize,
    ) -> Result<(), NoMemory>
        requires graph { IsGraph needs.now }
        requires node { node < length needs.now }
        requires placed { length self.old.placed ≡ length needs.now }
        requires waiting { length self.old.waiting.items ≡ length needs.now }
        ensures order { OnOk result (self.new.order ≡ self.old.order) }
        ensures placed { OnOk result (self.new.placed ≡ self.old.placed) }
        ensures settled { OnOk result (WaitsOrIsReady needs.now node from self.old self.new) }
    {
        let list = needs[node].as_slice();
        match first_unmet(list, self.placed.as_slice(), from) {
            Some(place) => self.wait_for(list[place], Wait { node, place }),
            None => add(&mut self.ready, node),
        }
    }

    fn wait_for(&mut self, need: usize, wait: Wait) -> Result<(), NoMemory>
        requires { need < length self.old.waiting.items }
        ensures order { OnOk result (self.new.order ≡ self.old.order) }
        ensures placed { OnOk result (self.new.placed ≡ self.old.placed) }
        ensures ready { OnOk result (self.new.ready.keys ≡ self.old.ready.keys) }
        ensures waiting { OnOk result (self.new.waiting.items ≡ with_wait need wait self.old.waiting.items) }
    {
        self.waiting[need].push(wait)
    }

    pub(crate) fn into_order(self) -> List<usize>
        ensures { result ≡ self.order }
    {
        let Building {
            order,
            placed: _,
            ready: _,
            waiting: _,
        } = self;
        order
    }
}

fn no_waits(alloc: Global, nodes: usize) -> Result<Vec<List<Wait>>, NoMemory>
    ensures { IfOk result (λ waits. waits.items ≡ replicate nodes []) }
{
    let mut waits = Vec::new(alloc);
    for _ in 0..nodes {
        waits.push(List::new(alloc))?;
    }
    Ok(waits)
}

// The place of the first need from a place on that isn't placed.
fn first_unmet(needs: &[usize], placed: &[bool], from: usize) -> Option<usize>
    requires { All (λ v. v < length placed.now) needs.now }
    ensures { MatchOption result (AreMet needs.now placed.now from (length needs.now))
        (IsFirstUnmet needs.now placed.now from) }
{
    for place in from..needs.len() {
        if !placed[needs[place]] {
            return Some(place);
        }
    }
    None
}
