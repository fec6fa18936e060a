// Marks of held nodes. A held node waits, and needs a failed one, directly or through others.
ghost use Rattle.std.specs.Prelude.{◌≡◌, ◌<◌, ◌≤◌, [], ◌∷◌, length, All, IfOk};
ghost use Rattle.plan_jobs.specs.Board.{AreBegun, AreHeld, HasFailed, MarksMore, MarksUsers};
ghost use Rattle.plan_jobs.specs.Marks.{NoneMarked, TakesLeast};

use crate::job::JobState;
use crate::marks::Marks;
use plan_types::{List, NoMemory};
use std::alloc::Global;

/// Marks of held nodes, and room for the search for more of them.
#[derive(Drop)]
pub(crate) struct Held {
    pub held: List<bool>,
    /// Newly marked nodes whose users are still to be visited. Empty between two events.
    pub to_go: Marks,
}

/// The nodes that are held before all events.
pub(crate) fn held_at_first(
    alloc: Global,
    users: &[List<usize>],
    states: &[JobState],
) -> Result<Held, NoMemory>
    requires { AreBegun users.now states.now }
    ensures held { IfOk result (λ h. AreHeld users.now states.now (HasFailed states.now) h.held) }
    ensures room { IfOk result (λ h. length states.now ≤ length h.to_go) }
    ensures idle { IfOk result (λ h. NoneMarked h.to_go) }
{
    let mut held = List::from_vec(vec![in alloc; false; states.len()]?);
    let mut to_go = Marks::new(alloc, states.len())?;
    for place in 0..states.len() {
        if states[place] == JobState::Failed {
            mark_held(users, states, &mut held, &mut to_go, place);
        }
    }
    Ok(Held { held, to_go })
}

/// Marks the waiting users of a node, then the waiting users of each newly marked node.
pub(crate) fn mark_held(
    users: &[List<usize>],
    states: &[JobState],
    held: &mut List<bool>,
    to_go: &mut Marks,
    place: usize,
)
    requires begun { AreBegun users.now states.now }
    requires count { length held.old ≡ length states.now }
    requires room { length states.now ≤ length to_go.old }
    requires idle { NoneMarked to_go.old }
    requires place { place < length states.now }
    ensures more { MarksMore users.now states.now place held.old held.new }
    ensures room { length to_go.new ≡ length to_go.old }
    ensures idle { NoneMarked to_go.new }
{
    hold_users(users[place].as_slice(), states, held, to_go);
    while let Some(next) = take_first(to_go) {
        hold_users(users[next].as_slice(), states, held, to_go);
    }
}

// Takes out the least marked place.
fn take_first(marks: &mut Marks) -> Option<usize>
    ensures { TakesLeast marks.old marks.new result }
{
    let first = marks.first();
    if let Some(place) = first {
        marks.set(place, false);
    }
    first
}

// Marks those of a node's users that wait, and marks them as still to be visited.
fn hold_users(users: &[usize], states: &[JobState], held: &mut List<bool>, to_go: &mut Marks)
    requires within { All (λ user. user < length states.now) users.now }
    requires count { length held.old ≡ length states.now }
    requires room { length states.now ≤ length to_go.old }
    ensures { MarksUsers users.now states.now held.old held.new to_go.old to_go.new }
{
    for user in users {
        hold_user(*user, states, held, to_go);
    }
}

fn hold_user(user: usize, states: &[JobState], held: &mut List<bool>, to_go: &mut Marks)
    requires within { user < length states.now }
    requires count { length held.old ≡ length states.now }
    requires room { length states.now ≤ length to_go.old }
    ensures { MarksUsers (user ∷ []) states.now held.old held.new to_go.old to_go.new }
{
    if states[user] == JobState::Waiting && !held.as_slice()[user] {
        held.set(user, true);
        to_go.set(user, true);
    }
}
