// The answer of a search.
use crate::{Choice, ConflictSet};
use plan_types::List;

/// What a search counted. Each count saturates at 2^64 - 1.
#[derive(Clone, Copy, Debug, Drop, PartialEq, Eq)]
pub struct Counts {
    /// The values that were tried.
    pub visited: u64,
    /// The exhausted points: those whose values all failed.
    pub exhausted: u64,
}

/// The answer of a search.
#[derive(Debug, Drop, PartialEq, Eq)]
pub enum Outcome {
    /// The trail of the first complete, valid assignment.
    Found { trail: List<Choice>, counts: Counts },
    /// There is none, and no assignment holds within this set.
    NoPlan { set: ConflictSet, counts: Counts },
    /// The limit on exhausted points was reached.
    GaveUp { counts: Counts },
}
