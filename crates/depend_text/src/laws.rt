// Laws of the texts of dependencies.
ghost use Rattle.std.specs.Prelude.{◌≡◌, ℕ, List};
ghost use Rattle.plan_types.specs.declared.dependency.Dep.{Dep};
ghost use Rattle.plan_types.specs.declared.dependency.DepKind.{DepKind};
ghost use Rattle.plan_types.specs.declared.range.Spec.{Spec};
ghost use Rattle.plan_types.specs.declared.refusal.Cause.{Cause};
ghost use Rattle.depend_text.specs.Depends.{Depends, DependsFault, Tools, ToolsFault};

/// A text denotes at most one list of entries.
pub fn one_reading()
    ensures depends { (spec : Spec) (kind : DepKind) (line : ℕ) (text : List ℕ) (a b : List Dep)
        → Depends spec kind line text a → Depends spec kind line text b → a ≡ b }
    ensures tools { (spec : Spec) (line : ℕ) (text : List ℕ) (a b : List Dep) → Tools spec line text a
        → Tools spec line text b → a ≡ b }
{}

/// A text has at most one fault.
pub fn one_fault()
    ensures depends { (spec : Spec) (kind : DepKind) (line : ℕ) (text : List ℕ) (c d : Cause)
        → DependsFault spec kind line text c → DependsFault spec kind line text d → c ≡ d }
    ensures tools { (spec : Spec) (line : ℕ) (text : List ℕ) (c d : Cause) → ToolsFault spec line text c
        → ToolsFault spec line text d → c ≡ d }
{}

/// A text that denotes entries has no fault.
pub fn reading_or_fault()
    ensures depends { (spec : Spec) (kind : DepKind) (line : ℕ) (text : List ℕ) (a : List Dep) (c : Cause)
        → Depends spec kind line text a → DependsFault spec kind line text c → ⊥ }
    ensures tools { (spec : Spec) (line : ℕ) (text : List ℕ) (a : List Dep) (c : Cause) → Tools spec line text a
        → ToolsFault spec line text c → ⊥ }
{}
