// What a run answers.

/// The answer that an output gives.
#[derive(Clone, Copy, Debug, PartialEq, Eq)]
pub enum Answer {
    /// A plan.
    Planned,
    /// There is no plan; the text shows a conflict set.
    NoPlan,
    /// The search reached its limit.
    GaveUp,
    /// The input is refused; the text is the refusal's line.
    Refused,
    /// The words have no reading; the text is the usage line.
    Usage,
}
