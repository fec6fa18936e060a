// The outcome of a record is unique.
ghost use Rattle.std.specs.Prelude.{◌≡◌, ℕ, List, Option, Result};
ghost use Rattle.plan_types.specs.declared.index.UnitRecord.{UnitRecord};
ghost use Rattle.unit_record.specs.Record.{IsRecord};

/// A text has at most one outcome: a record, none, or a fault.
pub fn one_record()
    ensures { (bytes : List ℕ) (a b : Result (Option UnitRecord) ℕ) → IsRecord bytes a
        → IsRecord bytes b → a ≡ b }
{}
