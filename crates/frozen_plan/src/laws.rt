// Laws of a problem with the constraints of a trail.
ghost use Rattle.std.specs.Prelude.{◌≡◌, ℕ, List, true};
ghost use Rattle.std.specs.List.{list_all};
ghost use Rattle.plan_types.specs.declared.condition.Env.{Env};
ghost use Rattle.plan_types.specs.declared.constraint.Constraint.{Constraint};
ghost use Rattle.plan_types.specs.declared.index.Index.{Index};
ghost use Rattle.plan_types.specs.declared.limit.Limit.TheVariants.{Unlimited};
ghost use Rattle.plan_types.specs.declared.project.Project.{Project};
ghost use Rattle.qualified_goals.specs.Names.{AreNumbers, NameTable};
ghost use Rattle.choice_problem.specs.declared.problem.Choice.{Choice};
ghost use Rattle.choice_problem.specs.Answer.{Found, answer_of};
ghost use Rattle.choice_problem.specs.Trail.{AreNew, trail_of, value_in};
ghost use Rattle.choice_problem.specs.Valid.{IsFirst, IsWholeValid};
ghost use Rattle.flatten.specs.Sound.{IsSound, has_package};
ghost use Rattle.solver_index.specs.Orders.{AreOrders};
ghost use Rattle.cabal_problem.specs.Problem.{problem_of};
ghost use Rattle.cabal_problem.specs.WholeDemands.{whole_problem};
ghost use Rattle.freeze_text.specs.Reads.{IsUnion, with_constraints};
ghost use Rattle.frozen_choices.specs.Frozen.{frozen};
ghost use Rattle.frozen_plan.specs.Narrower.{AddsNothing, StaysFirst};

use cabal_problem::{problem_is_lawful, valid_as_whole};
use choice_problem::{ends_right, general_is_lawful, one_first};
use frozen_choices::frozen_bars_none;

/// What is complete and valid with the constraints of a trail, in any order with those of the project, is so without
/// them.
pub fn frozen_adds_nothing()
    ensures { (env : Env) (index : Index) (project : Project) (names : NameTable) (orders : List (List ℕ))
        (trail : List Choice) (constraints : List Constraint) → IsSound env index
        → AreNumbers index.packages names → AreNew trail
        → IsWholeValid (whole_problem env index.packages project names orders) (value_in trail)
        → IsUnion constraints project.constraints (frozen index.packages names trail)
        → AddsNothing (whole_problem env index.packages project names orders)
        (whole_problem env index.packages (with_constraints constraints project) names orders) }
{}

/// If a trail is the first complete, valid assignment, it stays first with its constraints.
pub fn frozen_stays_first()
    ensures { (env : Env) (index : Index) (project : Project) (names : NameTable) (orders : List (List ℕ))
        (trail : List Choice) (constraints : List Constraint) → IsSound env index
        → AreNumbers index.packages names → AreNew trail
        → IsUnion constraints project.constraints (frozen index.packages names trail)
        → StaysFirst (whole_problem env index.packages project names orders)
        (whole_problem env index.packages (with_constraints constraints project) names orders) (value_in trail) }
{
    frozen_bars_none();
}

/// A search without a limit finds the trail of the first complete, valid assignment with the constraints of that
/// trail too.
pub fn found_again()
    ensures { (env : Env) (index : Index) (project : Project) (names : NameTable) (orders : List (List ℕ))
        (trail : List Choice) (constraints : List Constraint) → IsSound env index
        → list_all (λ named. has_package index named.name) project.extra ≡ true
        → AreNumbers index.packages names → AreOrders project index.packages orders
        → IsUnion constraints project.constraints (frozen index.packages names trail) → AreNew trail
        → IsFirst (whole_problem env index.packages project names orders) (value_in trail)
        → trail ≡ trail_of (whole_problem env index.packages project names orders) (value_in trail)
        → (answer_of (problem_of index.packages (with_constraints constraints project) names orders) Unlimited).ended
        ≡ Found trail }
{
    ends_right();
    general_is_lawful();
    one_first();
    problem_is_lawful();
    valid_as_whole();
    frozen_bars_none();
}
