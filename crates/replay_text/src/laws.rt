// A file of events has at most one reading, and a replay at most one text.
ghost use Rattle.std.specs.Prelude.{◌≡◌, ℕ, List, Result};
ghost use Rattle.plan_nodes.specs.declared.node.PlanNode.{PlanNode};
ghost use Rattle.replay_text.specs.declared.event.JobEvent.{JobEvent as TheEvent};
ghost use Rattle.replay_text.specs.Reading.{AreRead};
ghost use Rattle.replay_text.specs.Replay.{IsReplay};

/// The reading of lines is unique: a list of events, or the first bad line.
pub fn one_reading()
    ensures { (lines : List (List ℕ)) (a b : Result (List TheEvent) ℕ) → AreRead lines a → AreRead lines b → a ≡ b }
{}

/// The text of a replay is unique.
pub fn one_replay()
    ensures { (nodes : List PlanNode) (slots : ℕ) (events : List TheEvent) (a b : List ℕ)
        → IsReplay nodes slots events a → IsReplay nodes slots events b → a ≡ b }
{}
