// The freeze file is no package.
ghost use Rattle.std.specs.Prelude.{◌≡◌, List, Result, Ok};
ghost use Rattle.plan_types.specs.declared.condition.Env.{Env};
ghost use Rattle.plan_types.specs.declared.dependency.Named.{Named};
ghost use Rattle.plan_types.specs.declared.index.Index.{Index};
ghost use Rattle.plan_types.specs.declared.index.Places.{Places};
ghost use Rattle.plan_types.specs.declared.project.ProjectEntry.{ProjectEntry};
ghost use Rattle.plan_types.specs.declared.refusal.Refusal.{Refusal};
ghost use Rattle.outside_folder.specs.Files.{Bytes, Files};
ghost use Rattle.project_paths.specs.Local.{local_files};
ghost use Rattle.index_assembly.specs.Folder.{IsFolderIndex};
ghost use Rattle.refrozen_folder.specs.Refrozen.{IsRefrozen};

/// With another freeze file a folder has the same local files, and by these the same index.
pub fn packages_stay()
    ensures locals { (files now : Files) (text : Bytes) (entries : List ProjectEntry) → IsRefrozen files text now
        → local_files now entries ≡ local_files files entries }
    ensures index { (env : Env) (places : Places) (extra : List Named) (files now : Files) (text : Bytes)
        (entries : List ProjectEntry) (locals : List Bytes) (index : Result Index Refusal)
        → IsRefrozen files text now → local_files files entries ≡ Ok locals
        → IsFolderIndex env places extra locals files index → IsFolderIndex env places extra locals now index }
{}
