// The states of nodes at the end, and their counts.
ghost use Rattle.std.specs.Prelude.{◌<◌, ◌≤◌, ◌↔◌, ℕ, List, length, IsTrue};
ghost use Rattle.plan_nodes.specs.declared.node.PlanNode.{PlanNode};
ghost use Rattle.plan_jobs.specs.Events.{Event};
ghost use Rattle.plan_jobs.specs.Board.{AreAfter};
ghost use Rattle.replay_text.specs.Replay.{IsCount, HasEndState};

use plan_jobs::{JobState, Jobs};

/// The state of a node at the end. A held node doesn't count as waiting.
#[derive(Clone, Copy, Debug)]
pub(crate) enum EndState {
    Completed,
    Failed,
    Running,
    Waiting,
    Held,
}

/// How many of the first `nodes` nodes are in this state.
pub(crate) fn count_of(jobs: &Jobs, nodes: usize, standing: EndState) -> usize
    requires { nodes ≤ length jobs.now.states }
    ensures { (plan : List PlanNode) (slots : ℕ) (events : List Event) → AreAfter plan slots events jobs.now
        → IsCount (λ place. HasEndState plan events place standing) nodes result }
{
    let mut count = 0;
    for place in 0..nodes {
        if stands(jobs, place as u64, standing) {
            count += 1;
        }
    }
    count
}

fn stands(jobs: &Jobs, place: u64, standing: EndState) -> bool
    requires { place < length jobs.now.states }
    ensures { (plan : List PlanNode) (slots : ℕ) (events : List Event) → AreAfter plan slots events jobs.now
        → IsTrue result ↔ HasEndState plan events place standing }
{
    let state = jobs.state_of(place);
    match standing {
        EndState::Completed => state == JobState::Completed,
        EndState::Failed => state == JobState::Failed,
        EndState::Running => state == JobState::Running,
        EndState::Waiting => state == JobState::Waiting && !jobs.is_held(place),
        EndState::Held => jobs.is_held(place),
    }
}
