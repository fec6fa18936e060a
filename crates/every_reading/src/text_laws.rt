// Every text has a value or a fault.
ghost use Rattle.std.specs.Prelude.{ℕ, List, Option};
ghost use Rattle.plan_types.specs.declared.dependency.DepKind.{DepKind};
ghost use Rattle.plan_types.specs.declared.range.Spec.{Spec};
ghost use Rattle.plan_types.specs.declared.version.Version.{Version};
ghost use Rattle.version_range.specs.Version.{IsVersionOf};
ghost use Rattle.version_range.specs.Grammar as ranges;
ghost use Rattle.condition_text.specs.Grammar as conditions;
ghost use Rattle.depend_text.specs.Depends.{Depends, DependsFault, Tools, ToolsFault};
ghost use Rattle.constraint_text.specs.Named.{NamedRanges, NamedFault};
ghost use Rattle.constraint_text.specs.Constraints.{Constraints, ConstraintsFault};
ghost use Rattle.constraint_text.specs.Relaxes.{Relaxes, RelaxFault};
ghost use Rattle.every_reading.specs.Answered.{Answered};

/// Each text is a version, or isn't one.
pub fn version_or_none()
    ensures { (text : List ℕ) → (found : Option Version) × IsVersionOf text found }
{}

/// Each text denotes a range, or has a first fault.
pub fn some_range()
    ensures { (spec : Spec) (text : List ℕ)
        → Answered (ranges.Stands spec 64 text) (ranges.FirstFault spec 64 text) }
{}

/// Each text denotes a condition, or has a first fault.
pub fn some_condition()
    ensures { (spec : Spec) (text : List ℕ)
        → Answered (conditions.Stands spec 64 text) (conditions.FirstFault spec 64 text) }
{}

/// Each text denotes dependencies, or has the fault of an entry.
pub fn some_dependencies()
    ensures depends { (spec : Spec) (kind : DepKind) (line : ℕ) (text : List ℕ)
        → Answered (Depends spec kind line text) (DependsFault spec kind line text) }
    ensures tools { (spec : Spec) (line : ℕ) (text : List ℕ)
        → Answered (Tools spec line text) (ToolsFault spec line text) }
{}

/// Each text denotes named ranges, or has the fault of an entry. The same for constraints and relaxings.
pub fn some_constraints()
    ensures named { (text : List ℕ) → Answered (NamedRanges text) (NamedFault text) }
    ensures constraints { (text : List ℕ) → Answered (Constraints text) (ConstraintsFault text) }
    ensures relaxes { (text : List ℕ) → Answered (Relaxes text) (RelaxFault text) }
{}
