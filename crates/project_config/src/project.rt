// Reads the project files, and then finds the local packages by the project's entries.
ghost use Rattle.std.specs.Prelude.{◌≡◌, true, IfOk, IfSome, IsErrOf};
ghost use Rattle.std.specs.List.{list_all};
ghost use Rattle.plan_types.specs.Name.{is_package_name};
ghost use Rattle.outside_folder.specs.Calls.{Leaves};
ghost use Rattle.project_config.specs.Project.{IsFolderProject, freeze_bytes};
ghost use Rattle.plan_types.specs.Refusal.{Answers};

use crate::files::read_files;
use outside_folder::Folder;
use plan_types::{Env, Halt, List, Project, Text};
use project_paths::find_packages;
use std::alloc::Global;

/// The project of a folder, with the paths of its local packages.
#[derive(Debug, Drop)]
pub struct FolderProject {
    pub project: Project,
    /// The text of `cabal.project.freeze`, if there is one.
    pub freeze: Option<Text>,
    /// The paths of the local files, in byte order, each once.
    pub locals: List<Text>,
}

/// The project of `cabal.project`, `cabal.project.freeze` and `cabal.project.local`, in this order, with its local
/// files. Or the first refusal: of a project file (too large, or its first fault, in reading order), then of an entry.
/// Nothing is read after a refusal.
pub fn read_folder_project<F: Folder>(
    alloc: Global,
    env: &Env,
    folder: &mut F,
) -> Result<FolderProject, Halt>
    ensures observed { IfSome (F.tells folder.old) (λ files. Answers (IsFolderProject env.now files) result) }
    ensures freeze { IfSome (F.tells folder.old) (λ files. IfOk result (λ found. found.freeze ≡ freeze_bytes files)) }
    ensures extra { IfOk result (λ found. list_all (λ named. is_package_name named.name)
        found.project.extra ≡ true) }
    ensures folder { Leaves F.tells F.faults folder.old folder.new (IsErrOf result Halt.Failed) }
{
    let found = read_files(alloc, env, folder)?;
    let locals = find_packages(alloc, &found.project, found.implicit, folder)?;
    Ok(FolderProject {
        project: found.project,
        freeze: found.freeze,
        locals,
    })
}
