// Laws of histories, which are lists of events with the right replies.
ghost use Rattle.std.specs.Prelude.{◌≡◌, ◌<◌, ◌≤◌, ℕ, List, Result, ⊤, length};
ghost use Rattle.plan_nodes.specs.declared.node.PlanNode.{PlanNode};
ghost use Rattle.plan_jobs.specs.declared.job.JobFault.{JobFault};
ghost use Rattle.plan_jobs.specs.Events.{Event, IsReportReply, IsHistory, IsStart, running_after};
ghost use Rattle.plan_jobs.specs.Laws.{HasEnded, IsAtRest, KeepsHeld, StartsAfterNeeds, StartsNoneHeld, StartsOnce};

/// When a node starts, all its needs are completed.
pub fn starts_after_needs()
    ensures { (nodes : List PlanNode) (slots : ℕ) (events : List Event) → IsHistory nodes slots events
        → StartsAfterNeeds nodes events }
{}

/// No node starts twice.
pub fn starts_once()
    ensures { (nodes : List PlanNode) (slots : ℕ) (events : List Event) → IsHistory nodes slots events
        → StartsOnce events }
{}

/// At most as many nodes run as there are slots.
pub fn at_most_the_slots()
    ensures { (nodes : List PlanNode) (slots : ℕ) (events : List Event) → IsHistory nodes slots events
        → running_after nodes events ≤ slots }
{}

/// No held node starts.
pub fn starts_none_held()
    ensures { (nodes : List PlanNode) (slots : ℕ) (events : List Event) → IsHistory nodes slots events
        → StartsNoneHeld nodes events }
{}

/// A held node stays held.
pub fn stays_held()
    ensures { (nodes : List PlanNode) (slots : ℕ) (events : List Event) → IsHistory nodes slots events
        → KeepsHeld nodes events }
{}

/// If no node runs and none can start, each node is completed, has failed or is held.
pub fn ends_at_rest()
    ensures { (nodes : List PlanNode) (events : List Event) → IsAtRest nodes events → (place : ℕ)
        → place < length nodes → HasEnded nodes events place }
{}

/// At most one reply to a call is right.
pub fn one_reply()
    ensures start { (nodes : List PlanNode) (slots : ℕ) (events : List Event) (a b : Result ℕ JobFault)
        → IsStart nodes slots events a → IsStart nodes slots events b → a ≡ b }
    ensures end { (nodes : List PlanNode) (events : List Event) (place : ℕ) (a b : Result ⊤ JobFault)
        → IsReportReply nodes events place a → IsReportReply nodes events place b → a ≡ b }
{}
