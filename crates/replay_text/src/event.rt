// The events of a build.
ghost use Rattle.std.specs.Prelude.{◌≡◌};
ghost use Rattle.replay_text.specs.declared.event.EventsFault.TheVariants.{NoMemory as no_memory};

use plan_types::NoMemory;

/// An event of a build. A place is the index of a node in the plan's list, from 0; in a file it is a number from 1.
#[derive(Clone, Copy, Debug, PartialEq, Eq)]
pub enum JobEvent {
    /// The question for the next node to start.
    Start,
    Completed(u32),
    Failed(u32),
}

/// Why a file of events isn't read.
#[derive(Clone, Copy, Debug, PartialEq, Eq)]
pub enum EventsFault {
    NoMemory,
    /// The number, from 1, of the first line that is neither empty nor an event.
    Bad(usize),
}

impl From<NoMemory> for EventsFault {
    ghost from_gives = { λ e r. r ≡ no_memory };

    fn from(_: NoMemory) -> EventsFault {
        EventsFault::NoMemory
    }
}
