// A law that crates above use.

ghost use Rattle.std.specs.Prelude.{◌≡◌, List, ℕ, Result};
ghost use Rattle.plan_types.specs.declared.condition.Env.{Env};
ghost use Rattle.description.specs.declared.fault_order.At.{At};
ghost use Rattle.plan_types.specs.declared.index.Source.{Source};
ghost use Rattle.cabal_file.specs.Source.{IsSource};

use cabal_lexer::{one_fault, one_tree, tree_or_fault};
use description::one_outcome;

/// A file has at most one outcome in an environment: its source or its first fault.
pub fn one_source()
    ensures { (env : Env) (bytes : List ℕ) (a b : Result Source At) → IsSource env bytes a → IsSource env bytes b
        → a ≡ b }
{
    one_tree();
    one_fault();
    tree_or_fault();
    one_outcome();
}
