// A project and the settings of a plan.
use crate::{Constraint, Env, Limit, List, Named, Relax, Text, Warning, drop_fields};

/// An entry of `packages` or `optional-packages`: where to look for local packages.
#[derive(Debug, PartialEq, Eq, Drop)]
pub struct ProjectEntry {
    pub path: Text,
    /// The line of the field, from 1; 0 if no file has it.
    pub line: u32,
    pub text: Text,
    /// Whether it may match nothing.
    pub optional: bool,
}

/// The contents of the project files.
#[derive(Debug)]
pub struct Project {
    pub entries: List<ProjectEntry>,
    /// Packages that are planned besides the local ones.
    pub extra: List<Named>,
    pub constraints: List<Constraint>,
    pub preferences: List<Named>,
    pub newer: List<Relax>,
    pub older: List<Relax>,
    pub tests: bool,
    pub benchmarks: bool,
    pub limit: Limit,
    pub prefer_oldest: bool,
    /// Whether boot libraries may be built.
    pub boot_installs: bool,
    pub warnings: List<Warning>,
}

impl Drop for Project {
    fn drop(self) {
        drop_fields!(self; entries, extra, constraints, preferences, newer, older, tests, benchmarks, limit, prefer_oldest, boot_installs, warnings);
    }
}

/// The environment and project of a plan, and the limit of its search.
#[derive(Debug, Drop)]
pub struct Settings {
    pub env: Env,
    pub project: Project,
    pub limit: Limit,
}
