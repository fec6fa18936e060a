// The constraints of a project.
use crate::{FlagSet, List, Range, Text};

/// Where a constraint applies: at top level, everywhere, in every setup script, or in that of a package.
#[derive(Debug, PartialEq, Eq, Drop)]
pub enum Scope {
    Top,
    Any,
    Setup,
    SetupOf(Text),
}

/// What a constraint requires of a package.
#[derive(Debug, Drop)]
pub enum What {
    Range(Range),
    Installed,
    Source,
    Flags(List<FlagSet>),
    Tests,
    Benches,
}

/// A constraint of a project.
#[derive(Debug, Drop)]
pub struct Constraint {
    pub scope: Scope,
    pub package: Text,
    pub what: What,
}
