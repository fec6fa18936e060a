// The project files in reading order, each judged before the next is read. The text of the freeze file is kept.
ghost use Rattle.std.specs.Prelude.{◌≡◌, true, IfOk, IfSome, IsErrOf};
ghost use Rattle.std.specs.List.{list_all};
ghost use Rattle.plan_types.specs.Name.{is_package_name};
ghost use Rattle.plan_types.specs.Refusal.{Answers};
ghost use Rattle.outside_folder.specs.Calls.{Leaves};
ghost use Rattle.project_config.specs.Freeze.{is_freeze, kept};
ghost use Rattle.project_config.specs.Project.{AreSaid, is_main, project_files, too_large};

use outside_folder::{Content, Folder, read_content};
use plan_types::{Cause, Env, Halt, List, NoMemory, Project, Refusal, Text};
use project_file::{empty_project, with_project_file};
use std::alloc::Global;

/// The project of the project files.
#[derive(Debug, Drop)]
pub(crate) struct FilesProject {
    pub project: Project,
    /// Whether there is no `cabal.project`.
    pub implicit: bool,
    /// The text of the freeze file, if there is one.
    pub freeze: Option<Text>,
}

/// Reads the project files, up to the first that is refused.
pub(crate) fn read_files<F: Folder>(
    alloc: Global,
    env: &Env,
    folder: &mut F,
) -> Result<FilesProject, Halt>
    ensures observed { IfSome (F.tells folder.old) (λ files. Answers (AreSaid env.now files) result) }
    ensures extra { IfOk result (λ found. list_all (λ named. is_package_name named.name)
        found.project.extra ≡ true) }
    ensures folder { Leaves F.tells F.faults folder.old folder.new (IsErrOf result Halt.Failed) }
{
    let paths = project_files(alloc)?;
    let mut project = empty_project(alloc);
    let mut implicit = false;
    let mut freeze = None;
    for path in paths.into_vec() {
        let content = read_content(alloc, path.as_str(), folder)?;
        match content {
            Content::Missing => implicit |= is_main(&path),
            Content::TooLarge => return Err(too_large(alloc, path)),
            Content::Bytes(bytes) => {
                let (more, text) = with_project_file(alloc, project, &path, bytes, env)?;
                project = more;
                freeze = kept(freeze, path, text);
            }
        }
    }
    Ok(FilesProject {
        project,
        implicit,
        freeze,
    })
}

// The text of the freeze file, once it is read.
fn kept(before: Option<Text>, path: Text, text: Text) -> Option<Text>
    ensures { result ≡ kept before (record { path = path; bytes = text }) }
{
    if is_freeze(&path) { Some(text) } else { before }
}

fn is_freeze(path: &Text) -> bool
    ensures { result ≡ is_freeze path.now }
{
    path.as_str() == "cabal.project.freeze"
}

fn too_large(alloc: Global, path: Text) -> Halt
    ensures { result ≡ Halt.Refused (too_large path) }
{
    Halt::Refused(Refusal::at(alloc, path, 0, Cause::TooLarge))
}

fn project_files(alloc: Global) -> Result<List<Text>, NoMemory>
    ensures { IfOk result (λ paths. paths ≡ project_files) }
{
    let mut paths = List::new(alloc);
    paths.push(Text::from_str(alloc, "cabal.project")?)?;
    paths.push(Text::from_str(alloc, "cabal.project.freeze")?)?;
    paths.push(Text::from_str(alloc, "cabal.project.local")?)?;
    Ok(paths)
}

fn is_main(path: &Text) -> bool
    ensures { result ≡ is_main path.now }
{
    path.as_str() == "cabal.project"
}
