// A project with constraints alone.
ghost use Rattle.std.specs.Prelude.{◌≡◌, []};
ghost use Rattle.project_file.specs.Project.{project_from};
ghost use Rattle.freeze_text.specs.Reads.{project_with};

use plan_types::{Constraint, List, Project};
use project_file::empty_project;
use std::alloc::Global;

/// A project with these constraints and nothing else.
pub fn project_with(alloc: Global, constraints: List<Constraint>) -> Project
    ensures { result ≡ project_with constraints }
{
    let mut project = nothing(alloc);
    project.constraints = constraints;
    project
}

fn nothing(alloc: Global) -> Project
    ensures { result ≡ project_from [] }
{
    empty_project(alloc)
}
