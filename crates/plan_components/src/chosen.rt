// An index with the choices of a trail.
ghost use Rattle.std.specs.Prelude.{◌≡◌, ℕ, true};
ghost use Rattle.plan_types.specs.Packages.{entries_of};
ghost use Rattle.solver_index.specs.Places.{entry_at};
ghost use Rattle.plan_components.specs.Apart.{flags_apart};

use choice_problem::Table;
use plan_types::{Env, Index};
use qualified_goals::Names;

/// An index, the numbers of its names, the environment, and the chosen values.
#[derive(Drop)]
pub struct Chosen<'a> {
    pub(crate) index: &'a Index,
    pub(crate) names: &'a Names,
    pub(crate) env: &'a Env,
    pub(crate) values: &'a Table,
    ghost apart: { (p i : ℕ) → flags_apart (entry_at (entries_of index.now.packages p) i).body ≡ true },
}
