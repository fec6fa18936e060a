// The verdict on a choice.
use choice_problem::ConflictSet;

/// The answer of a state to a choice.
#[derive(Debug, Drop, PartialEq, Eq)]
pub enum Verdict {
    Accepted,
    /// No assignment holds within this set and makes the choices so far, with this one, of its variables.
    Conflict(ConflictSet),
}
