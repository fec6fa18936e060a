// Laws of the texts of ranges, and of relaxed ranges.
ghost use Rattle.std.specs.Prelude.{◌≡◌, ◌≤◌, ◌||◌, ℕ, Bool, List, true, false};
ghost use Rattle.plan_types.specs.declared.range.Range.{Range};
ghost use Rattle.plan_types.specs.declared.range.Spec.{Spec};
ghost use Rattle.plan_types.specs.declared.refusal.Cause.{Cause};
ghost use Rattle.plan_types.specs.declared.version.Version.{Version};
ghost use Rattle.version_range.specs.Version.{has_versions};
ghost use Rattle.version_range.specs.Cuts.{HasNumbers, Relaxes};
ghost use Rattle.version_range.specs.Print.{range_text, most_open};
ghost use Rattle.version_range.specs.Grammar.{Stands, FirstFault};

/// A text denotes at most one range.
pub fn one_range()
    ensures { (spec : Spec) (text : List ℕ) (r s : Range) → Stands spec 64 text r
        → Stands spec 64 text s → r ≡ s }
{}

/// A text has at most one first fault.
pub fn one_fault()
    ensures { (spec : Spec) (text : List ℕ) (c d : Cause) → FirstFault spec 64 text c
        → FirstFault spec 64 text d → c ≡ d }
{}

/// A text that denotes a range has no fault.
pub fn range_or_fault()
    ensures { (spec : Spec) (text : List ℕ) (r : Range) (cause : Cause) → Stands spec 64 text r
        → FirstFault spec 64 text cause → ⊥ }
{}

/// The printed text of a range denotes that range, if its versions are well-formed and its text has at most
/// 64 parentheses open at once.
pub fn reads_back()
    ensures { (spec : Spec) (r : Range) → has_versions r ≡ true → most_open 0 (range_text r) ≤ 64
        → Stands spec 64 (range_text r) r }
{}

/// Relaxing twice is relaxing once in the directions of both, in either order. A set with the same members is the set
/// relaxed in no direction.
pub fn relaxed_twice()
    ensures newer_first { (has once both : Version → Bool) → Relaxes true false has once
        → Relaxes false true once both → Relaxes true true has both }
    ensures older_first { (has once both : Version → Bool) → Relaxes false true has once
        → Relaxes true false once both → Relaxes true true has both }
    ensures twice { (newer older also_newer also_older : Bool) (has once twice : Version → Bool)
        → Relaxes newer older has once → Relaxes also_newer also_older once twice
        → Relaxes (newer || also_newer) (older || also_older) has twice }
    ensures same { (has same : Version → Bool) → ((v : Version) → HasNumbers v → same v ≡ has v)
        → Relaxes false false has same }
{}
