// The jobs of a build: the nodes of a plan, of which at most `slots` run at once.
ghost use Rattle.std.specs.Prelude.{◌≡◌, ◌<◌, ◌++◌, ◌↔◌, ℕ, List, [], ◌∷◌, length, IfOk, OnErr, IsTrue, MatchResult};
ghost use Rattle.plan_nodes.specs.declared.node.PlanNode.{PlanNode};
ghost use Rattle.plan_jobs.specs.declared.job.JobFault.TheVariants.{NotRunning};
ghost use Rattle.plan_jobs.specs.declared.job.JobState.TheVariants.{Running};
ghost use Rattle.plan_jobs.specs.Events.{Event, IsReportReply, IsHeld, IsStart, completes, fails, starts, state_after};
ghost use Rattle.plan_jobs.specs.Board.{AreAfter, ForItsEvents, state_at};

use crate::holding::{held_at_first, mark_held};
use crate::job::{JobFault, JobState};
use crate::marks::Marks;
use crate::meeting::{count_down, ready_at_first};
use crate::needs::Needs;
use plan_nodes::PlanNode;
use plan_types::{List, NoMemory, drop_fields};
use std::alloc::Global;
use std::marker::Model;

/// The jobs of a build. A place is the index of a node in the plan's list, from 0.
pub struct Jobs {
    slots: u32,
    running: u32,
    /// The users of each node, once for each time that they list its identifier.
    users: Vec<List<usize>>,
    states: List<JobState>,
    /// How many of each node's needs aren't completed.
    unmet: List<usize>,
    ready: Marks,
    /// Which nodes are held.
    held: List<bool>,
    /// Room for the nodes still to be visited while held nodes are marked.
    to_hold: Marks,
}

impl Drop for Jobs {
    fn drop(self) {
        drop_fields!(self; slots, running, users, states, unmet, ready, held, to_hold);
    }
}

impl Model for Jobs {
    ghost use Rattle.plan_jobs.specs.Board.{Board, Keeps};

    ghost Value = { Board };

    ghost view = { λ j. record { users = j.users.items; states = j.states; slots = j.slots } };

    ghost invariant = { λ j. Keeps j.users.items j.states j.unmet j.ready j.held j.to_hold j.running j.slots };
}

impl Jobs {
    /// The jobs before all events. Later calls take no memory: all of it is taken here.
    pub fn new(alloc: Global, nodes: &[PlanNode], slots: u32) -> Result<Jobs, NoMemory>
        ensures { IfOk result (AreAfter nodes.now slots []) }
    {
        let Needs {
            places: _,
            users,
            states,
            unmet,
        } = Needs::of(alloc, nodes)?;
        let ready = ready_at_first(alloc, states.as_slice(), unmet.as_slice())?;
        let held = held_at_first(alloc, users.as_slice(), states.as_slice())?;
        Ok(Jobs {
            slots,
            running: 0,
            users,
            states,
            unmet,
            ready,
            held: held.held,
            to_hold: held.to_go,
        })
    }

    /// Starts the least ready node.
    pub fn start_next(&mut self) -> Result<u64, JobFault>
        ensures reply { ForItsEvents self.old (λ nodes slots events. IsStart nodes slots events result) }
        ensures after { ForItsEvents self.old
            (λ nodes slots events. AreAfter nodes slots (events ++ starts result ∷ []) self.new) }
        ensures err { OnErr result (self.new ≡ self.old) }
    {
        if self.running == self.slots {
            return Err(JobFault::NoSlot);
        }
        let Some(place) = self.ready.first() else {
            return Err(JobFault::NoneReady);
        };
        self.states.set(place, JobState::Running);
        self.ready.set(place, false);
        self.running += 1;
        Ok(place as u64)
    }

    /// Reports that a running node is completed.
    pub fn completed(&mut self, place: u64) -> Result<(), JobFault>
        ensures reply { ForItsEvents self.old (λ nodes slots events. IsReportReply nodes events place result) }
        ensures after { ForItsEvents self.old
            (λ nodes slots events. AreAfter nodes slots (events ++ completes place result ∷ []) self.new) }
        ensures err { OnErr result (self.new ≡ self.old) }
    {
        let place = running_place(self.states.as_slice(), place)?;
        self.states.set(place, JobState::Completed);
        self.running -= 1;
        count_down(
            self.users[place].as_slice(),
            self.states.as_slice(),
            &mut self.unmet,
            &mut self.ready,
        );
        Ok(())
    }

    /// Reports that a running node has failed.
    pub fn failed(&mut self, place: u64) -> Result<(), JobFault>
        ensures reply { ForItsEvents self.old (λ nodes slots events. IsReportReply nodes events place result) }
        ensures after { ForItsEvents self.old
            (λ nodes slots events. AreAfter nodes slots (events ++ fails place result ∷ []) self.new) }
        ensures err { OnErr result (self.new ≡ self.old) }
    {
        let place = running_place(self.states.as_slice(), place)?;
        self.states.set(place, JobState::Failed);
        self.running -= 1;
        mark_held(
            self.users.as_slice(),
            self.states.as_slice(),
            &mut self.held,
            &mut self.to_hold,
            place,
        );
        Ok(())
    }

    /// The number of nodes.
    pub fn node_count(&self) -> usize
        ensures { result ≡ length self.now.states }
    {
        self.states.len()
    }

    /// The state of a node.
    pub fn state_of(&self, place: u64) -> JobState
        requires { place < length self.now.states }
        ensures state { ForItsEvents self.now (λ nodes slots events. result ≡ state_after nodes events place) }
    {
        self.states.as_slice()[place as usize]
    }

    /// Whether a node is held: it waits, and needs a failed node, directly or through others.
    pub fn is_held(&self, place: u64) -> bool
        requires { place < length self.now.states }
        ensures { ForItsEvents self.now (λ nodes slots events. IsTrue result ↔ IsHeld nodes events place) }
    {
        self.held.as_slice()[place as usize]
    }
}

// The place, if its node runs.
fn running_place(states: &[JobState], place: u64) -> Result<usize, JobFault>
    ensures { MatchResult result (λ p. (p ≡ place) × (place < length states.now)
        × (state_at states.now place ≡ Running))
        (λ fault. (fault ≡ NotRunning) × ((place < length states.now) × (state_at states.now place ≡ Running) → ⊥)) }
{
    let place = place as usize;
    if place < states.len() && states[place] == JobState::Running {
        Ok(place)
    } else {
        Err(JobFault::NotRunning)
    }
}
