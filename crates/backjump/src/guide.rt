// Guides pick the variables of a search.
ghost use Rattle.std.specs.Prelude.{◌≡◌, List, OnOk, OnErr};
ghost use Rattle.qualified_goals.specs.declared.variable.Var.{Var};
ghost use Rattle.choice_problem.specs.declared.problem.Choice.{Choice};
ghost use Rattle.choice_problem.specs.Problem.{Problem, Lawful};
ghost use Rattle.choice_problem.specs.Active.{open_in};
ghost use Rattle.choice_problem.specs.Guide as spec;
ghost use Rattle.choice_problem.specs.Guides.{least-is-guide};
ghost use Rattle.validation.specs.View.{Represents};
ghost use Rattle.backjump.specs.Guide.{Follows, GoesBack, Learns, RecallsStill};

use choice_problem::{ConflictSet, Trail, Var};
use plan_types::NoMemory;
use std::alloc::Global;
use validation::State;

/// Picks the variables of a search. The search reports each conflict set, and each choice that is made or
/// undone.
pub trait Guide {
    // the picks, as a function of conflict sets and open variables
    ghost picks: { spec.Guide };

    // the guide recalls these conflict sets, the last one first, and these choices
    ghost recalls: { Self → List (List Var) → List Choice → Type 0 };

    /// The next variable, or `None` where none is open.
    fn pick(&self, state: &State) -> Option<Var>
        ensures { (p : Problem) (met : List (List Var)) → Lawful p → Represents p state.now
            → recalls self.now met state.now.trail → result ≡ picks met (open_in p state.now.trail) };

    /// The search has this conflict set, after these choices.
    fn learn(&mut self, alloc: Global, set: &ConflictSet, trail: &Trail) -> Result<(), NoMemory>
        ensures ok { OnOk result (Learns recalls set.now trail.now self.old self.new) }
        ensures err { OnErr result (RecallsStill recalls trail.now self.old self.new) };

    /// A choice of this variable was made.
    fn chosen(&mut self, v: Var)
        ensures { Follows recalls v self.old self.new };

    /// The last choice, which was of this variable, was undone.
    fn taken_back(&mut self, v: Var) -> Result<(), NoMemory>
        ensures ok { OnOk result (GoesBack recalls v self.old self.new) }
        ensures err { OnErr result ((trail : List Choice) → RecallsStill recalls trail self.old self.new) };

    ghost is_guide: { spec.IsGuide picks };
}

/// Picks the least open variable, and recalls nothing.
#[derive(Clone, Copy, Debug, Drop)]
pub struct Least;

impl Guide for Least {
    ghost picks = { spec.least };

    ghost recalls = { λ guide met trail. Unit {0} };

    fn pick(&self, state: &State) -> Option<Var> {
        state.least()
    }

    fn learn(&mut self, _: Global, _: &ConflictSet, _: &Trail) -> Result<(), NoMemory> {
        Ok(())
    }

    fn chosen(&mut self, _: Var) {}

    fn taken_back(&mut self, _: Var) -> Result<(), NoMemory> {
        Ok(())
    }

    ghost is_guide = { least-is-guide };
}
