// Counts of the needs that aren't completed, and marks of the ready nodes.
ghost use Rattle.std.specs.Prelude.{◌≡◌, ◌<◌, ◌≤◌, ◌+◌, ◌-◌, ℕ, length, slice_index, slice_set, All, IfOk};
ghost use Rattle.plan_jobs.specs.Board.{AreReady, times};

use crate::job::JobState;
use crate::marks::Marks;
use plan_types::{List, NoMemory};
use std::alloc::Global;

/// Marks of the nodes that can start before all events.
pub(crate) fn ready_at_first(
    alloc: Global,
    states: &[JobState],
    unmet: &[usize],
) -> Result<Marks, NoMemory>
    requires { length unmet.now ≡ length states.now }
    ensures room { IfOk result (λ ready. length states.now ≤ length ready) }
    ensures ready { IfOk result (AreReady states.now unmet.now) }
{
    let mut ready = Marks::new(alloc, states.len())?;
    for place in 0..states.len() {
        if states[place] == JobState::Waiting && unmet[place] == 0 {
            ready.set(place, true);
        }
    }
    Ok(ready)
}

/// Counts one need of each of these users as completed. Waiting users with no other such need become ready.
pub(crate) fn count_down(
    users: &[usize],
    states: &[JobState],
    unmet: &mut List<usize>,
    ready: &mut Marks,
)
    requires within { All (λ user. user < length states.now) users.now }
    requires count { length unmet.old ≡ length states.now }
    requires open { (user : ℕ) → times user users.now ≤ slice_index unmet.old user }
    requires room { length states.now ≤ length ready.old }
    requires ready { AreReady states.now unmet.old ready.old }
    ensures count { length unmet.new ≡ length unmet.old }
    ensures room { length ready.new ≡ length ready.old }
    ensures less { (user : ℕ) → slice_index unmet.new user + times user users.now ≡ slice_index unmet.old user }
    ensures ready { AreReady states.now unmet.new ready.new }
{
    for user in users {
        count_down_one(*user, states, unmet, ready);
    }
}

// Counts one need of a user as completed.
fn count_down_one(user: usize, states: &[JobState], unmet: &mut List<usize>, ready: &mut Marks)
    requires within { user < length states.now }
    requires count { length unmet.old ≡ length states.now }
    requires open { 0 < slice_index unmet.old user }
    requires room { length states.now ≤ length ready.old }
    requires ready { AreReady states.now unmet.old ready.old }
    ensures room { length ready.new ≡ length ready.old }
    ensures less { unmet.new ≡ slice_set unmet.old user (slice_index unmet.old user - 1) }
    ensures ready { AreReady states.now unmet.new ready.new }
{
    let left = unmet.as_slice()[user] - 1;
    unmet.set(user, left);
    if left == 0 && states[user] == JobState::Waiting {
        ready.set(user, true);
    }
}
