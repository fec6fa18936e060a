// Laws of the paths of a condition.
ghost use Rattle.std.specs.Prelude.{◌≡◌, ℕ, Bool, true, Some, List, slice_get};
ghost use Rattle.std.specs.List.{list_any};
ghost use Rattle.plan_types.specs.declared.condition.Cond.{Cond};
ghost use Rattle.plan_types.specs.declared.condition.Env.{Env};
ghost use Rattle.conditionals.specs.Value.{Flags, value};
ghost use Rattle.conditionals.specs.Paths.{Path, paths_of, followed, clean_paths, holds, is_wanted};

/// Under each partial assignment of flags, some path holds iff the value is the wanted one.
pub fn some_path_holds()
    ensures { (env : Env) (cond : Cond) (want : Bool) (flags : Flags)
        → list_any (holds flags) (clean_paths (paths_of env cond want)) ≡ is_wanted want
        (value env flags cond) }
{}

/// No two paths at different places hold together.
pub fn no_two_paths_hold()
    ensures { (env : Env) (cond : Cond) (want : Bool) (flags : Flags) (i j : ℕ) (path other : Path)
        → slice_get (clean_paths (paths_of env cond want)) i ≡ Some path
        → slice_get (clean_paths (paths_of env cond want)) j ≡ Some other
        → holds flags path ≡ true → holds flags other ≡ true → i ≡ j }
{}

/// Cleaning two lists of paths before they are joined doesn't change the clean result.
pub fn cleaned_before_joined()
    ensures { (first second : List Path)
        → clean_paths (followed (clean_paths first) (clean_paths second)) ≡ clean_paths
        (followed first second) }
{}
