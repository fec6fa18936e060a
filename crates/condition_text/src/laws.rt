// Laws of the texts of conditions.
ghost use Rattle.std.specs.Prelude.{◌≡◌, ℕ, List};
ghost use Rattle.plan_types.specs.declared.condition.Cond.{Cond};
ghost use Rattle.plan_types.specs.declared.range.Spec.{Spec};
ghost use Rattle.plan_types.specs.declared.refusal.Cause.{Cause};
ghost use Rattle.condition_text.specs.Grammar.{Stands, FirstFault};

/// A text denotes at most one condition.
pub fn one_condition()
    ensures { (spec : Spec) (text : List ℕ) (c d : Cond) → Stands spec 64 text c
        → Stands spec 64 text d → c ≡ d }
{}

/// A text has at most one first fault.
pub fn one_condition_fault()
    ensures { (spec : Spec) (text : List ℕ) (c d : Cause) → FirstFault spec 64 text c
        → FirstFault spec 64 text d → c ≡ d }
{}

/// A text that denotes a condition has no fault.
pub fn condition_or_fault()
    ensures { (spec : Spec) (text : List ℕ) (c : Cond) (cause : Cause) → Stands spec 64 text c
        → FirstFault spec 64 text cause → ⊥ }
{}
