// The states of a node's build, and the reasons why a call is refused.

/// The state of a node's build.
#[derive(Clone, Copy, Debug, PartialEq, Eq)]
pub enum JobState {
    Waiting,
    Running,
    /// An installed node begins here.
    Completed,
    /// An unbuildable node begins here.
    Failed,
}

/// Why a call is refused. The jobs are unchanged then.
#[derive(Clone, Copy, Debug, PartialEq, Eq)]
pub enum JobFault {
    /// A slot is free, but no node can be started.
    NoneReady,
    /// As many nodes run as there are slots.
    NoSlot,
    /// No node at the place runs.
    NotRunning,
}
