// The path-based algorithm for strongly connected components. The path is cut into groups. The nodes of a group reach
// each other, and each group has an edge into the next. A step takes an edge from the last group. An unseen target
// becomes a new last group; a target on the path merges all groups from its own on. A last group without further edges
// is a whole strongly connected component, and is finished.
ghost use Rattle.std.specs.Prelude.{◌≡◌, ◌≢◌, ◌≤◌, ◌<◌, ◌↔◌, ◌⊎◌, ℕ, List, [], ◌++◌, length, IsTrue, IfOk, OnOk, MatchOption, true, false, All, Contains, drop, slice_index, slice_index_or, replicate, position};
ghost use Rattle.component_cycle.specs.declared.search.NodeState.{NodeState};
ghost use Rattle.component_cycle.specs.declared.search.GroupStart.{GroupStart};
ghost use Rattle.common_laws.specs.Graphs.{IsGraph};
ghost use Rattle.component_cycle.specs.Search.{IsSound, IsLast, HasLast, DoesNotRaise, AllReach, entered, costs, state, Lowers, IsCyclic, is_on_cycle, AreFinished, OthersStay, SeenCostNothing};

use plan_types::{List, NoMemory, drop_fields};
use std::alloc::Global;

/// The state of a node.
#[derive(Clone, Copy, Drop)]
pub(crate) enum NodeState {
    Unseen,
    /// On the path, at this place.
    OnPath(usize),
    /// Its component is complete; whether the node lies on a cycle.
    Finished(bool),
}

/// The start of a group on the path, and of its targets in `waiting`.
#[derive(Clone, Copy, Drop)]
pub(crate) struct GroupStart {
    pub place: usize,
    pub waiting: usize,
}

pub(crate) struct Search {
    pub states: List<NodeState>,
    pub path: List<usize>,
    pub waiting: List<usize>,
    pub marks: List<GroupStart>,
}

impl Drop for Search {
    fn drop(self) {
        drop_fields!(self; states, path, waiting, marks);
    }
}

impl Search {
    pub(crate) fn new(alloc: Global, nodes: usize) -> Result<Search, NoMemory>
        ensures { IfOk result (λ s. s ≡ record {
          states = replicate nodes NodeState.Unseen;
          path = [];
          waiting = [];
          marks = [];
        }) }
    {
        Ok(Search {
            states: List::from_vec(vec![in alloc; NodeState::Unseen; nodes]?),
            path: List::new(alloc),
            waiting: List::new(alloc),
            marks: List::new(alloc),
        })
    }

    // Appends a node to the path as a group of its own.
    fn enter(&mut self, needs: &[List<usize>], node: usize) -> Result<(), NoMemory>
        requires node { node < length needs.now }
        requires count { length self.old.states ≡ length needs.now }
        ensures { OnOk result (self.new ≡ entered needs.now node self.old) }
    {
        self.marks.push(GroupStart {
            place: self.path.len(),
            waiting: self.waiting.len(),
        })?;
        self.states.set(node, NodeState::OnPath(self.path.len()));
        self.path.push(node)?;
        push_all(&mut self.waiting, needs[node].as_slice())
    }

    /// Settles a node and all nodes that it reaches.
    pub(crate) fn finish(&mut self, needs: &[List<usize>], root: usize) -> Result<(), NoMemory>
        requires graph { IsGraph needs.now }
        requires root { root < length needs.now }
        requires sound { IsSound needs.now self.old None }
        requires marks { self.old.marks ≡ [] }
        ensures sound { OnOk result (IsSound needs.now self.new None) }
        ensures marks { OnOk result (self.new.marks ≡ []) }
        ensures root { OnOk result (state self.new root ≢ NodeState.Unseen) }
        ensures seen { OnOk result ((v : ℕ) → state self.old v ≢ NodeState.Unseen
            → state self.new v ≢ NodeState.Unseen) }
    {
        if !self.is_unseen(root) {
            return Ok(());
        }
        self.enter(needs, root)?;
        while let Some(mark) = self.last_mark() {
            self.step(needs, mark)?;
        }
        Ok(())
    }

    fn is_unseen(&self, node: usize) -> bool
        requires { node < length self.now.states }
        ensures { IsTrue result ↔ (state self.now node ≡ NodeState.Unseen) }
    {
        match self.states.as_slice()[node] {
            NodeState::Unseen => true,
            NodeState::OnPath(_) => false,
            NodeState::Finished(_) => false,
        }
    }

    fn last_mark(&self) -> Option<GroupStart>
        ensures { MatchOption result (self.now.marks ≡ []) (λ m. IsLast self.now.marks m) }
    {
        self.marks.as_slice().last().copied()
    }

    // Whether the last group begins after a place.
    fn begins_behind(&self, place: usize) -> bool
        ensures behind { result ≡ true → HasLast self.now.marks (λ m. place < m.place) }
        ensures not_behind { result ≡ false → (self.now.marks ≡ []) ⊎ HasLast self.now.marks (λ m. m.place ≤ place) }
    {
        match self.last_mark() {
            Some(mark) => mark.place > place,
            None => false,
        }
    }

    // Takes an edge from the last group, or settles the group if no edge is left.
    fn step(&mut self, needs: &[List<usize>], mark: GroupStart) -> Result<(), NoMemory>
        requires graph { IsGraph needs.now }
        requires sound { IsSound needs.now self.old None }
        requires mark { IsLast self.old.marks mark }
        ensures { OnOk result (Lowers needs.now self.old self.new) }
    {
        if self.waiting.len() <= mark.waiting {
            self.close(needs, mark);
            return Ok(());
        }
        match self.waiting.pop() {
            Some(node) => self.look_at(needs, node),
            None => unreachable!(),
        }
    }

    // Takes an edge from the last group to a node. If the node is on the path, merges the groups from its own on.
    fn look_at(&mut self, needs: &[List<usize>], node: usize) -> Result<(), NoMemory>
        requires sound { IsSound needs.now self.old (Some node) }
        requires leads { AllReach needs.now self.old node }
        requires node { node < length needs.now }
        ensures { OnOk result (DoesNotRaise needs.now self.old self.new) }
    {
        match self.states.as_slice()[node] {
            NodeState::Unseen => self.enter(needs, node),
            NodeState::OnPath(place) => {
                while self.begins_behind(place) {
                    self.marks.pop();
                }
                Ok(())
            }
            NodeState::Finished(_) => Ok(()),
        }
    }

    // Settles the last group.
    fn close(&mut self, needs: &[List<usize>], mark: GroupStart)
        requires sound { IsSound needs.now self.old None }
        requires mark { IsLast self.old.marks mark }
        requires none { length self.old.waiting ≤ mark.waiting }
        ensures { Lowers needs.now self.old self.new }
    {
        let group = behind(&self.path, mark.place);
        let on_cycle = is_cyclic(needs, group);
        finish_all(&mut self.states, group, on_cycle);
        self.path.truncate(mark.place);
        self.marks.pop();
    }

    /// The first settled node that lies on a cycle.
    pub(crate) fn first_on_cycle(&self) -> Option<usize>
        ensures { result ≡ position is_on_cycle self.now.states }
    {
        self.states
            .as_slice()
            .iter()
            .position(|state| is_on_cycle(*state))
    }
}

// The path from a place to its end.
fn behind(path: &List<usize>, place: usize) -> &[usize]
    requires { place ≤ length path.now }
    ensures { result.now ≡ drop place path.now }
{
    &path.as_slice()[place..]
}

fn is_on_cycle(state: NodeState) -> bool
    ensures { result ≡ is_on_cycle state }
{
    match state {
        NodeState::Unseen => false,
        NodeState::OnPath(_) => false,
        NodeState::Finished(on_cycle) => on_cycle,
    }
}

// Whether the nodes of a component lie on cycles: there are several, or one that needs itself.
fn is_cyclic(needs: &[List<usize>], group: &[usize]) -> bool
    requires { All (λ v. v < length needs.now) group.now }
    ensures { IsCyclic needs.now group.now result }
{
    match group {
        [node] => needs[*node].as_slice().contains(node),
        _ => true,
    }
}

fn finish_all(states: &mut List<NodeState>, nodes: &[usize], on_cycle: bool)
    requires inside { All (λ v. v < length states.old) nodes.now }
    ensures count { length states.new ≡ length states.old }
    ensures settled { AreFinished nodes.now on_cycle states.new }
    ensures others { OthersStay nodes.now states.old states.new }
    ensures costs { SeenCostNothing nodes.now states.old states.new }
{
    for node in nodes {
        states.set(*node, NodeState::Finished(on_cycle));
    }
}

fn push_all(list: &mut List<usize>, more: &[usize]) -> Result<(), NoMemory>
    ensures { OnOk result (list.new ≡ list.old ++ more.now) }
{
    for item in more {
        list.push(*item)?;
    }
    Ok(())
}
