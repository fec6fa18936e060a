// The relaxed ranges of a project are decidable.
ghost use Rattle.plan_types.specs.declared.project.Project.{Project};
ghost use Rattle.solver_index.specs.AllowedVersions.{AreRelaxedRanges, allowed_versions};

/// A test decides which versions are in the relaxed ranges of a project.
pub fn relaxed_ranges()
    ensures { (project : Project) → AreRelaxedRanges project (allowed_versions project) }
{}
