// A task: the index of a folder's packages, and the settings of a plan.
ghost use Rattle.std.specs.Prelude.{◌≡◌, ◌++◌, IfOk, IfSome, IsErrOf, Ok, true};
ghost use Rattle.std.specs.List.{list_all};
ghost use Rattle.flatten.specs.Sound.{IsSound};
ghost use Rattle.outside_folder.specs.Calls.{Leaves};
ghost use Rattle.package_index.specs.Extra.{AreMarked, AreThere};
ghost use Rattle.plan_types.specs.Name.{is_package_name};
ghost use Rattle.project_config.specs.Project.{freeze_bytes};
ghost use Rattle.plan_task.specs.Task.{IsReady, IsTask, IsTaskOf, task_of, warned};
ghost use Rattle.plan_types.specs.Refusal.{Answers};

use command_line::Options;
use outside_folder::Folder;
use package_index::build_index;
use plan_types::{Halt, Index, List, NoMemory, Project, Settings, Text, Warning};
use project_config::{FolderProject, read_folder_project};
use std::alloc::Global;

/// What to plan: the index of a folder's packages, and the settings of a plan.
#[derive(Debug, Drop)]
pub struct Task {
    pub settings: Settings,
    pub index: Index,
    /// The text of `cabal.project.freeze`, if there is one.
    pub freeze: Option<Text>,
}

/// The task of a folder with these options, or the first refusal.
pub fn read_task<F: Folder>(alloc: Global, options: Options, folder: &mut F) -> Result<Task, Halt>
    ensures observed { IfSome (F.tells folder.old) (λ files. Answers (IsTask options files) result) }
    ensures freeze { IfSome (F.tells folder.old) (λ files. IfOk result (λ task. task.freeze ≡ freeze_bytes files)) }
    ensures ready { IfOk result IsReady }
    ensures folder { Leaves F.tells F.faults folder.old folder.new (IsErrOf result Halt.Failed) }
{
    let found = read_folder_project(alloc, &options.env, folder)?;
    task_in(alloc, options, found, folder)
}

// The task of a project whose files were read.
fn task_in<F: Folder>(
    alloc: Global,
    options: Options,
    found: FolderProject,
    folder: &mut F,
) -> Result<Task, Halt>
    requires { list_all (λ named. is_package_name named.name) found.project.extra ≡ true }
    ensures observed { IfSome (F.tells folder.old) (λ files. Answers (IsTaskOf options files (Ok found)) result) }
    ensures freeze { IfOk result (λ task. task.freeze ≡ found.freeze) }
    ensures ready { IfOk result IsReady }
    ensures folder { Leaves F.tells F.faults folder.old folder.new (IsErrOf result Halt.Failed) }
{
    let index = build_index(
        alloc,
        &found.locals,
        &found.project.extra,
        &options.places,
        &options.env,
        folder,
    )?;
    let task = task_of(alloc, options, found.project, found.freeze, index)?;
    Ok(task)
}

fn task_of(
    alloc: Global,
    options: Options,
    project: Project,
    freeze: Option<Text>,
    index: Index,
) -> Result<Task, NoMemory>
    requires sound { IsSound options.env index }
    requires there { AreThere project.extra index }
    requires marked { AreMarked project.extra index }
    ensures task { IfOk result (λ task. task ≡ task_of options project freeze index) }
    ensures ready { IfOk result IsReady }
{
    let index = warned(alloc, &project, index)?;
    let limit = options.limit.unwrap_or(project.limit);
    Ok(Task {
        settings: Settings {
            env: options.env,
            project,
            limit,
        },
        index,
        freeze,
    })
}

// Warnings of project files come before those of local files.
fn warned(alloc: Global, project: &Project, index: Index) -> Result<Index, NoMemory>
    ensures { IfOk result (λ made. made ≡ warned project.now index) }
{
    let mut warnings = copied(alloc, project.warnings.as_slice())?;
    let Index {
        packages,
        skipped,
        warnings: mut of_files,
    } = index;
    warnings.append(&mut of_files)?;
    Ok(Index {
        packages,
        skipped,
        warnings,
    })
}

fn copied(alloc: Global, warnings: &[Warning]) -> Result<List<Warning>, NoMemory>
    ensures { IfOk result (λ copied. copied ≡ warnings.now) }
{
    let mut copied = List::new(alloc);
    for warning in warnings {
        let path = warning.path.copy()?;
        let word = warning.word.copy()?;
        copied.push(Warning {
            path,
            line: warning.line,
            word,
        })?;
    }
    Ok(copied)
}
