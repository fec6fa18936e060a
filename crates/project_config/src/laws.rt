// Laws of the projects of folders.
ghost use Rattle.std.specs.Prelude.{◌≡◌, Result};
ghost use Rattle.plan_types.specs.declared.condition.Env.{Env};
ghost use Rattle.plan_types.specs.declared.refusal.Refusal.{Refusal};
ghost use Rattle.outside_folder.specs.Files.{Files};
ghost use Rattle.project_config.specs.Project.{IsFolderProject};
ghost use Rattle.project_config.specs.declared.project.FolderProject.{FolderProject};

use project_file::one_outcome;

/// A folder has at most one outcome: one project or one first refusal.
pub fn one_folder_project()
    ensures { (env : Env) (files : Files) (a b : Result FolderProject Refusal) → IsFolderProject env files a
        → IsFolderProject env files b → a ≡ b }
{
    one_outcome();
}
