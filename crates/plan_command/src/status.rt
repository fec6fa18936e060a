// How a run ends, and its exit status.
ghost use Rattle.std.specs.Prelude.{◌≡◌};
ghost use Rattle.plan_command.specs.Status.{number_of_status, status_of};

use crate::Answer;

/// How a run ended.
#[derive(Clone, Copy, Debug, PartialEq, Eq)]
pub enum Status {
    /// A plan was printed.
    Planned,
    /// There is no plan; a conflict set was printed.
    NoPlan,
    /// The search reached its limit; that was printed.
    GaveUp,
    /// The input was refused; the refusal's line was printed.
    Refused,
    /// A file or folder could not be read.
    ReadFault,
    /// The output could not be written.
    WriteFault,
    NoMemory,
    /// The words have no reading; the usage line was printed.
    Usage,
}

impl Status {
    /// The status of a run that wrote its whole output, by the output's answer.
    pub fn of(answer: Answer) -> Status
        ensures { result ≡ status_of answer }
    {
        match answer {
            Answer::Planned => Status::Planned,
            Answer::NoPlan => Status::NoPlan,
            Answer::GaveUp => Status::GaveUp,
            Answer::Refused => Status::Refused,
            Answer::Usage => Status::Usage,
        }
    }
}

/// The program's exit status.
pub fn code_of(status: Status) -> u8
    ensures { result ≡ number_of_status status }
{
    match status {
        Status::Planned => 0,
        Status::NoPlan => 1,
        Status::GaveUp => 2,
        Status::Refused => 3,
        Status::ReadFault => 4,
        Status::WriteFault => 5,
        Status::NoMemory => 6,
        Status::Usage => 64,
    }
}
