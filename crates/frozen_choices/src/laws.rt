// Laws of the constraints of a trail.
ghost use Rattle.std.specs.Prelude.{ℕ, List};
ghost use Rattle.plan_types.specs.declared.condition.Env.{Env};
ghost use Rattle.plan_types.specs.declared.index.Index.{Index};
ghost use Rattle.plan_types.specs.declared.project.Project.{Project};
ghost use Rattle.qualified_goals.specs.Names.{AreNumbers, NameTable};
ghost use Rattle.choice_problem.specs.declared.problem.Choice.{Choice};
ghost use Rattle.choice_problem.specs.Trail.{AreNew, value_in};
ghost use Rattle.flatten.specs.Sound.{IsSound};
ghost use Rattle.cabal_problem.specs.WholeDemands.{IsWholeAssignment};
ghost use Rattle.frozen_choices.specs.Barred.{BarsNone};
ghost use Rattle.frozen_choices.specs.Frozen.{frozen};
ghost use Rattle.frozen_choices.specs.Plain.{AreInDomains, ArePlain};

/// If a trail is a complete, valid assignment, its constraints bar no choice of it.
pub fn frozen_bars_none()
    ensures { (env : Env) (index : Index) (project : Project) (names : NameTable) (orders : List (List ℕ))
        (trail : List Choice)
        → IsSound env index → AreNumbers index.packages names → AreNew trail
        → IsWholeAssignment env index.packages project names orders (value_in trail)
        → BarsNone index.packages names (frozen index.packages names trail) trail }
{}

/// The constraints of a trail are plain, so their text reads back. A choice out of its domain would have no version.
pub fn frozen_is_plain()
    ensures { (env : Env) (index : Index) (names : NameTable) (trail : List Choice) → IsSound env index
        → AreInDomains index.packages trail → ArePlain (frozen index.packages names trail) }
{}
