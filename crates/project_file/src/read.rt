// All project files, in reading order.
ghost use Rattle.std.specs.Prelude.{◌≡◌, ◌≤◌, ◌++◌, ◌∷◌, true, [], length, List, Ok, IfOk};
ghost use Rattle.std.specs.List.{list_all, AllByRecursion};
ghost use Rattle.plan_types.specs.Name.{is_package_name};
ghost use Rattle.plan_types.specs.declared.condition.Env.{Env};
ghost use Rattle.project_file.specs.Read.{FileReads, IsProject, IsWithFile, IsWithin, halt_of};
ghost use Rattle.project_file.specs.declared.read.ProjectText.{ProjectText};
ghost use Rattle.plan_types.specs.Refusal.{Settles};

use crate::part::ProjectPart;
use crate::project::{nothing, take_file};
use crate::text::read_text;
use cabal_lexer::{as_text, into_text};
use plan_types::{Env, Fault, Halt, List, NoMemory, Project, Refusal, Text};
use std::alloc::Global;

/// A project file.
#[derive(Debug, Drop)]
pub struct ProjectText {
    pub path: Text,
    pub bytes: List<u8>,
}

/// The project of these files, or the refusal of the first file with a fault. A fault of the layout comes before the
/// others, which go by line.
///
/// The extra packages of the project have well-formed names.
pub fn read_project(alloc: Global, texts: &List<ProjectText>, env: &Env) -> Result<Project, Halt>
    requires { AllByRecursion IsWithin texts.now }
    ensures project { Settles (IsProject env.now texts.now) result }
    ensures extra { IfOk result (λ project. list_all (λ named. is_package_name named.name)
        project.extra ≡ true) }
{
    let mut project = empty_project(alloc);
    for text in texts.as_slice() {
        project = with_borrowed(alloc, project, text, env)?;
    }
    Ok(project)
}

/// The project of no files.
pub fn empty_project(alloc: Global) -> Project
    ensures { (env : Env) → IsProject env [] (Ok result) }
{
    nothing(alloc)
}

/// The project of some files with one more file after them, and the text of that file. Or the refusal of the file.
/// Its bytes become the text without a copy.
pub fn with_project_file(
    alloc: Global,
    project: Project,
    path: &Text,
    bytes: List<u8>,
    env: &Env,
) -> Result<(Project, Text), Halt>
    requires { length bytes ≤ 1048576 }
    ensures { (before : List ProjectText) → IsProject env.now before (Ok project)
        → Settles (IsWithFile env.now before (record { path = path.now; bytes = bytes })) result }
{
    match into_text(bytes) {
        Ok(text) => {
            let project = with_text(alloc, project, path, text.as_str(), env)?;
            Ok((project, text))
        }
        Err(fault) => Err(halt_of(alloc, path, fault)?),
    }
}

fn with_borrowed(
    alloc: Global,
    project: Project,
    file: &ProjectText,
    env: &Env,
) -> Result<Project, Halt>
    requires { IsWithin file.now }
    ensures { (before : List ProjectText) → IsProject env.now before (Ok project)
        → Settles (IsProject env.now (before ++ file.now ∷ [])) result }
{
    match as_text(file.bytes.as_slice()) {
        Ok(text) => with_text(alloc, project, &file.path, text, env),
        Err(fault) => Err(halt_of(alloc, &file.path, fault)?),
    }
}

// The project with one more file of this text.
fn with_text(
    alloc: Global,
    mut project: Project,
    path: &Text,
    text: &str,
    env: &Env,
) -> Result<Project, Halt>
    requires { length text.now ≤ 1048576 }
    ensures { (before : List ProjectText) → IsProject env.now before (Ok project)
        → Settles (IsProject env.now (before ++ record { path = path.now; bytes = text.now } ∷ [])) result }
{
    let parts = read_file(alloc, env, path, text)?;
    take_file(&mut project, path, parts)?;
    Ok(project)
}

fn read_file(alloc: Global, env: &Env, path: &Text, text: &str) -> Result<List<ProjectPart>, Halt>
    requires { length text.now ≤ 1048576 }
    ensures { Settles (FileReads env.now (record { path = path.now; bytes = text.now })) result }
{
    match read_text(alloc, env, text) {
        Ok(parts) => Ok(parts),
        Err(fault) => Err(halt_of(alloc, path, fault)?),
    }
}

// The halt for a fault in the file at this path.
fn halt_of(alloc: Global, path: &Text, fault: Fault) -> Result<Halt, NoMemory>
    ensures { IfOk result (λ halt. halt ≡ halt_of path.now fault) }
{
    match fault {
        Fault::NoMemory => Ok(Halt::NoMemory),
        Fault::At { line, cause } => {
            let path = path.copy()?;
            Ok(Halt::Refused(Refusal::at(alloc, path, line, cause)))
        }
    }
}
