// The parts of a project file.
use plan_types::{Cause, Constraint, Limit, List, Named, Relax, Text};

/// The settings that are true or false.
#[derive(Clone, Copy, Debug, PartialEq, Eq)]
pub(crate) enum Switch {
    Tests,
    Benchmarks,
    PreferOldest,
    BootInstalls,
}

/// The content of a field or section.
#[derive(Debug, Drop)]
pub(crate) enum ProjectSaid {
    /// Entries of `packages`, or of `optional-packages`, which may match nothing.
    Entries { texts: List<Text>, optional: bool },
    Extra(List<Named>),
    Constraints(List<Constraint>),
    Preferences(List<Named>),
    Newer(List<Relax>),
    Older(List<Relax>),
    Switch { which: Switch, on: bool },
    Limit(Limit),
    /// The name of a field or section that is accepted but not read, for a warning.
    Warning(Text),
    /// Its fault: it can't be read, or isn't allowed here.
    Bad(Cause),
}

/// A part of a file with its line.
#[derive(Debug, Drop)]
pub(crate) struct ProjectPart {
    /// From 1.
    pub line: u32,
    pub said: ProjectSaid,
}
