// Every folder has an outcome.
ghost use Rattle.std.specs.Prelude.{List, Result};
ghost use Rattle.plan_types.specs.declared.condition.Env.{Env};
ghost use Rattle.plan_types.specs.declared.dependency.Named.{Named};
ghost use Rattle.plan_types.specs.declared.index.Index.{Index};
ghost use Rattle.plan_types.specs.declared.index.Places.{Places};
ghost use Rattle.plan_types.specs.declared.refusal.Refusal.{Refusal};
ghost use Rattle.outside_folder.specs.Files.{Bytes, Files};
ghost use Rattle.project_config.specs.Project.{IsFolderProject};
ghost use Rattle.project_config.specs.declared.project.FolderProject.{FolderProject};
ghost use Rattle.index_assembly.specs.Folder.{IsFolderIndex};

/// The files of a folder have a project or a first refusal.
pub fn some_folder_project()
    ensures { (env : Env) (files : Files)
        → (outcome : Result FolderProject Refusal) × IsFolderProject env files outcome }
{}

/// The files of a folder have an index or a first refusal.
pub fn some_folder_index()
    ensures { (env : Env) (places : Places) (extra : List Named) (paths : List Bytes) (files : Files)
        → (outcome : Result Index Refusal) × IsFolderIndex env places extra paths files outcome }
{}
