// The result is unique.
ghost use Rattle.std.specs.Prelude.{◌≡◌, ℕ, List, Option};
ghost use Rattle.component_cycle.specs.Cycle.{IsFirstOnCycle};

/// The first node on a cycle is unique.
pub fn one_first()
    ensures { (needs : List (List ℕ)) (a b : Option ℕ) → IsFirstOnCycle needs a → IsFirstOnCycle needs b → a ≡ b }
{}
