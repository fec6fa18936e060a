// The outcome of a file of events is unique.
ghost use Rattle.std.specs.Prelude.{◌≡◌, List, Result};
ghost use Rattle.outside_folder.specs.Files.{Bytes, Files};
ghost use Rattle.plan_types.specs.declared.refusal.Refusal.{Refusal};
ghost use Rattle.replay_text.specs.declared.event.JobEvent.{JobEvent};
ghost use Rattle.event_file.specs.Events.{AreEventsAt};

use replay_text::one_reading;

/// The file at a path has one outcome: its events, or its refusal.
pub fn one_event_list()
    ensures { (path : Bytes) (files : Files) (a b : Result (List JobEvent) Refusal)
        → AreEventsAt path files a → AreEventsAt path files b → a ≡ b }
{
    one_reading();
}
