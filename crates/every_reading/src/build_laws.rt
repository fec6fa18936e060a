// Each file of events has a reading, and each replay a text.
ghost use Rattle.std.specs.Prelude.{ℕ, List, Result};
ghost use Rattle.plan_types.specs.declared.refusal.Refusal.{Refusal};
ghost use Rattle.outside_folder.specs.Files.{Bytes, Files};
ghost use Rattle.plan_nodes.specs.declared.node.PlanNode.{PlanNode};
ghost use Rattle.replay_text.specs.declared.event.JobEvent.{JobEvent};
ghost use Rattle.replay_text.specs.Reading.{AreRead};
ghost use Rattle.replay_text.specs.Replay.{IsReplay};
ghost use Rattle.event_file.specs.Events.{AreEventsAt};

/// Lines have events, or a first bad line.
pub fn some_reading()
    ensures { (lines : List (List ℕ)) → (read : Result (List JobEvent) ℕ) × AreRead lines read }
{}

/// The file at a path has events, or a refusal.
pub fn some_event_list()
    ensures { (path : Bytes) (files : Files) → (told : Result (List JobEvent) Refusal) × AreEventsAt path files told }
{}

/// The replay of a build has a text.
pub fn some_replay()
    ensures { (nodes : List PlanNode) (slots : ℕ) (events : List JobEvent)
        → (text : List ℕ) × IsReplay nodes slots events text }
{}
