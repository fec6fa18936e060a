// Laws of the texts of constraints, named ranges and relaxings.
ghost use Rattle.std.specs.Prelude.{◌≡◌, ℕ, List};
ghost use Rattle.plan_types.specs.declared.constraint.Constraint.{Constraint};
ghost use Rattle.plan_types.specs.declared.dependency.Named.{Named};
ghost use Rattle.plan_types.specs.declared.dependency.Relax.{Relax};
ghost use Rattle.plan_types.specs.declared.refusal.Cause.{Cause};
ghost use Rattle.constraint_text.specs.Named.{NamedRanges, NamedFault};
ghost use Rattle.constraint_text.specs.Constraints.{Constraints, ConstraintsFault};
ghost use Rattle.constraint_text.specs.Relaxes.{Relaxes, RelaxFault};

/// A text denotes at most one list of entries.
pub fn one_reading()
    ensures named { (text : List ℕ) (a b : List Named) → NamedRanges text a → NamedRanges text b → a ≡ b }
    ensures constraints { (text : List ℕ) (a b : List Constraint) → Constraints text a
        → Constraints text b → a ≡ b }
    ensures relaxes { (text : List ℕ) (a b : List Relax) → Relaxes text a → Relaxes text b → a ≡ b }
{}

/// A text has at most one fault.
pub fn one_fault()
    ensures named { (text : List ℕ) (c d : Cause) → NamedFault text c → NamedFault text d → c ≡ d }
    ensures constraints { (text : List ℕ) (c d : Cause) → ConstraintsFault text c
        → ConstraintsFault text d → c ≡ d }
    ensures relaxes { (text : List ℕ) (c d : Cause) → RelaxFault text c → RelaxFault text d → c ≡ d }
{}

/// A text that denotes entries has no fault.
pub fn reading_or_fault()
    ensures named { (text : List ℕ) (a : List Named) (c : Cause) → NamedRanges text a → NamedFault text c → ⊥ }
    ensures constraints { (text : List ℕ) (a : List Constraint) (c : Cause) → Constraints text a
        → ConstraintsFault text c → ⊥ }
    ensures relaxes { (text : List ℕ) (a : List Relax) (c : Cause) → Relaxes text a → RelaxFault text c → ⊥ }
{}
