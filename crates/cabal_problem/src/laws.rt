// Laws of the problem of an index and a project.
ghost use Rattle.std.specs.Prelude.{◌≡◌, ℕ, List, true};
ghost use Rattle.std.specs.List.{list_all};
ghost use Rattle.plan_types.specs.declared.index.Index.{Index};
ghost use Rattle.plan_types.specs.declared.condition.Env.{Env};
ghost use Rattle.plan_types.specs.declared.project.Project.{Project};
ghost use Rattle.qualified_goals.specs.Names.{AreNumbers, NameTable};
ghost use Rattle.choice_problem.specs.General.{general};
ghost use Rattle.choice_problem.specs.Joined.{AreOne, AreYesTogether};
ghost use Rattle.choice_problem.specs.Problem.{Lawful, Problem};
ghost use Rattle.flatten.specs.Sound.{IsSound, has_package};
ghost use Rattle.solver_index.specs.Orders.{AreOrders};
ghost use Rattle.cabal_problem.specs.Groups.{IsInGroups};
ghost use Rattle.cabal_problem.specs.Problem.{IsProblemOf, problem_of};
ghost use Rattle.cabal_problem.specs.WholeDemands.{whole_problem};

use choice_problem::{general_is_lawful, valid_alike};
use flatten::counts_as_its_condition;
use preferences::one_order;

/// The listed demands come in groups, one for each demand with a whole condition and in their order. A demand with a
/// whole condition is Yes exactly if a demand of its group is.
pub fn listed_as_whole()
    ensures groups { (env : Env) (index : Index) (project : Project) (names : NameTable) (orders : List (List ℕ))
        → IsSound env index → AreNumbers index.packages names
        → IsInGroups (whole_problem env index.packages project names orders)
        (problem_of index.packages project names orders) }
    ensures together { (env : Env) (index : Index) (project : Project) (names : NameTable) (orders : List (List ℕ))
        → IsSound env index → AreNumbers index.packages names
        → AreYesTogether (whole_problem env index.packages project names orders)
        (general (problem_of index.packages project names orders)) }
{
    counts_as_its_condition();
}

/// Both problems, with whole conditions and with listed demands, have the same valid assignments and the same first
/// one.
pub fn valid_as_whole()
    ensures { (env : Env) (index : Index) (project : Project) (names : NameTable) (orders : List (List ℕ))
        → IsSound env index → AreNumbers index.packages names → AreOrders project index.packages orders
        → list_all (λ named. has_package index named.name) project.extra ≡ true
        → AreOne (whole_problem env index.packages project names orders)
        (general (problem_of index.packages project names orders)) }
{
    listed_as_whole();
    general_is_lawful();
    valid_alike();
}

/// The problem of a sound index that has each extra package is lawful.
pub fn problem_is_lawful()
    ensures { (env : Env) (index : Index) (project : Project) (names : NameTable) (p : Problem)
        → IsSound env index → list_all (λ named. has_package index named.name) project.extra ≡ true
        → IsProblemOf index project names p → Lawful p }
{}

/// The problem of an index and a project is unique, and so are the numbers of its names.
pub fn one_problem()
    ensures { (index : Index) (project : Project) (names others : NameTable) (p q : Problem)
        → IsProblemOf index project names p → IsProblemOf index project others q → (names ≡ others) × (p ≡ q) }
{
    one_order();
}
