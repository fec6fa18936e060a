// How a run ends, and its exit status.
ghost use Rattle.std.specs.Prelude.{◌≡◌};
ghost use Rattle.modern_files.specs.Status.{number_of_status, status_of, stop_of_trouble};
ghost use Rattle.modern_files.specs.declared.status.Stop.TheVariants.{NoMemory as stop_no_memory, Unwritten as stop_unwritten};

use outside_folder::{SinkFault, Trouble};
use plan_types::NoMemory;

/// How a run ended.
#[derive(Clone, Copy, Debug, PartialEq, Eq)]
pub enum Status {
    /// The frames of all paths were written.
    Written,
    /// A list was refused; the refusal's line was written.
    Refused,
    /// A file could not be read.
    ReadFault,
    /// The output could not be written.
    WriteFault,
    NoMemory,
    /// No list was named; the usage line was written.
    Usage,
}

/// The program's exit status.
pub fn code_of(status: Status) -> u8
    ensures { result ≡ number_of_status status }
{
    match status {
        Status::Written => 0,
        Status::Refused => 3,
        Status::ReadFault => 4,
        Status::WriteFault => 5,
        Status::NoMemory => 6,
        Status::Usage => 64,
    }
}

/// Why no more is written.
#[derive(Clone, Copy, Debug, PartialEq, Eq)]
pub(crate) enum Stop {
    /// A read failed.
    Unread,
    /// A write failed.
    Unwritten,
    NoMemory,
}

impl From<NoMemory> for Stop {
    ghost from_gives = { λ _ stop. stop ≡ stop_no_memory };

    fn from(_: NoMemory) -> Self {
        Stop::NoMemory
    }
}

impl From<Trouble> for Stop {
    ghost from_gives = { λ trouble stop. stop ≡ stop_of_trouble trouble };

    fn from(trouble: Trouble) -> Self {
        match trouble {
            Trouble::Failed => Stop::Unread,
            Trouble::NoMemory => Stop::NoMemory,
        }
    }
}

impl From<SinkFault> for Stop {
    ghost from_gives = { λ _ stop. stop ≡ stop_unwritten };

    fn from(fault: SinkFault) -> Self {
        match fault {
            SinkFault::Failed => Stop::Unwritten,
        }
    }
}

/// The status of a run that wrote all, or stopped.
pub(crate) fn status_of(written: Result<(), Stop>, whole: Status) -> Status
    ensures { result ≡ status_of whole written }
{
    match written {
        Ok(()) => whole,
        Err(Stop::Unread) => Status::ReadFault,
        Err(Stop::Unwritten) => Status::WriteFault,
        Err(Stop::NoMemory) => Status::NoMemory,
    }
}
