// Laws of project files.
ghost use Rattle.std.specs.Prelude.{◌≡◌, List, Result};
ghost use Rattle.plan_types.specs.declared.condition.Env.{Env};
ghost use Rattle.plan_types.specs.declared.project.Project.{Project};
ghost use Rattle.plan_types.specs.declared.refusal.Refusal.{Refusal};
ghost use Rattle.project_file.specs.Read.{IsProject};
ghost use Rattle.project_file.specs.declared.read.ProjectText.{ProjectText};

/// Project files have at most one outcome: one project or one first refusal.
pub fn one_outcome()
    ensures { (env : Env) (texts : List ProjectText) (a b : Result Project Refusal) → IsProject env texts a
        → IsProject env texts b → a ≡ b }
{}
