// The users of each node, its first state, and how many of its needs aren't completed then.
ghost use Rattle.std.specs.Prelude.{◌≡◌, ◌<◌, ◌++◌, [], ◌∷◌, length, flat_map, count_by, IfOk, OnOk, All};
ghost use Rattle.keyed_lists.specs.Lists.{items_at};
ghost use Rattle.plan_types.specs.Bytes.{same_text};
ghost use Rattle.plan_jobs.specs.Events.{is_installed};
ghost use Rattle.plan_jobs.specs.Board.{is_completed, is_open, with_user};
ghost use Rattle.plan_jobs.specs.Building.{AddsPlace, AreOf, first_state, listed_places};

use crate::job::JobState;
use keyed_lists::{Lists, items_at, push_at};
use plan_nodes::{NodeKind, PlanNode};
use plan_types::{List, NoMemory, Text};
use std::alloc::Global;

/// The tables of the nodes read so far.
#[derive(Drop)]
pub(crate) struct Needs {
    /// The places of each identifier.
    pub places: Lists<Text, usize>,
    pub users: Vec<List<usize>>,
    pub states: List<JobState>,
    pub unmet: List<usize>,
}

impl Needs {
    pub(crate) fn of(alloc: Global, nodes: &[PlanNode]) -> Result<Needs, NoMemory>
        ensures { IfOk result (AreOf nodes.now) }
    {
        let mut needs = Needs {
            places: Lists::new(alloc),
            users: Vec::new(alloc),
            states: List::new(alloc),
            unmet: List::new(alloc),
        };
        for node in nodes {
            needs.add(alloc, node)?;
        }
        Ok(needs)
    }

    // Adds a node behind the others.
    fn add(&mut self, alloc: Global, node: &PlanNode) -> Result<(), NoMemory>
        requires listed_places { All (λ place. place < length self.old.states)
            (listed_places self.old.places node.now) }
        requires users { length self.old.users.items ≡ length self.old.states }
        ensures places { OnOk result (AddsPlace self.old.places node.now.id (length self.old.states) self.new.places) }
        ensures users { OnOk result (self.new.users.items
            ≡ with_user (length self.old.states) self.old.users.items (listed_places self.old.places node.now) ++ []
            ∷ []) }
        ensures states { OnOk result (self.new.states ≡ self.old.states ++ first_state node.now ∷ []) }
        ensures unmet { OnOk result (self.new.unmet
            ≡ self.old.unmet ++ count_by (is_open self.old.states) (listed_places self.old.places node.now) ∷ []) }
    {
        let place = self.states.len();
        let listed_places = listed_places(alloc, &self.places, node)?;
        let unmet = count_open(self.states.as_slice(), listed_places.as_slice());
        add_user(&mut self.users, place, listed_places.as_slice())?;
        self.users.push(List::new(alloc))?;
        self.states.push(first_state(node))?;
        self.unmet.push(unmet)?;
        push_at(alloc, &mut self.places, node.id.copy()?, place)
    }
}

// The places of the nodes with the identifiers that a node lists; none for an installed node.
fn listed_places(
    alloc: Global,
    places: &Lists<Text, usize>,
    node: &PlanNode,
) -> Result<List<usize>, NoMemory>
    ensures { IfOk result (λ found. found ≡ listed_places places.now node.now) }
{
    let mut found = List::new(alloc);
    if !is_installed(node.kind) {
        add_places(&mut found, places, node.libs.as_slice())?;
        add_places(&mut found, places, node.tools.as_slice())?;
        add_places(&mut found, places, node.setups.as_slice())?;
    }
    Ok(found)
}

fn add_places(
    found: &mut List<usize>,
    places: &Lists<Text, usize>,
    ids: &[Text],
) -> Result<(), NoMemory>
    ensures { OnOk result (found.new ≡ found.old ++ flat_map (items_at same_text places.now) ids.now) }
{
    for id in ids {
        add_all(found, items_at(places, id))?;
    }
    Ok(())
}

fn add_all(found: &mut List<usize>, more: &[usize]) -> Result<(), NoMemory>
    ensures { OnOk result (found.new ≡ found.old ++ more.now) }
{
    for place in more {
        found.push(*place)?;
    }
    Ok(())
}

// How many of these nodes aren't completed.
fn count_open(states: &[JobState], places: &[usize]) -> usize
    requires { All (λ place. place < length states.now) places.now }
    ensures { result ≡ count_by (is_open states.now) places.now }
{
    let mut count = 0;
    for place in places {
        if !is_completed(states[*place]) {
            count += 1;
        }
    }
    count
}

fn add_user(users: &mut Vec<List<usize>>, user: usize, places: &[usize]) -> Result<(), NoMemory>
    requires { All (λ place. place < length users.old.items) places.now }
    ensures { OnOk result (users.new.items ≡ with_user user users.old.items places.now) }
{
    for place in places {
        users[*place].push(user)?;
    }
    Ok(())
}

// The state of a node before all events.
fn first_state(node: &PlanNode) -> JobState
    ensures { result ≡ first_state node.now }
{
    if node.unbuildable {
        JobState::Failed
    } else if is_installed(node.kind) {
        JobState::Completed
    } else {
        JobState::Waiting
    }
}

fn is_installed(kind: NodeKind) -> bool
    ensures { result ≡ is_installed kind }
{
    kind == NodeKind::Installed
}

pub(crate) fn is_completed(state: JobState) -> bool
    ensures { result ≡ is_completed state }
{
    match state {
        JobState::Completed => true,
        JobState::Waiting | JobState::Running | JobState::Failed => false,
    }
}
