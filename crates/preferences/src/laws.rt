// The order is unique.
ghost use Rattle.std.specs.Prelude.{◌≡◌, ℕ, List};
ghost use Rattle.plan_types.specs.declared.index.Instance.{Instance};
ghost use Rattle.plan_types.specs.declared.range.Range.{Range};
ghost use Rattle.preferences.specs.declared.policy.Policy.{Policy};
ghost use Rattle.preferences.specs.Places.{IsOrder};

/// The order of some instances is unique.
pub fn one_order()
    ensures { (policy : Policy) (preferred : List Range) (instances : List Instance) (a b : List ℕ)
        → IsOrder policy preferred instances a → IsOrder policy preferred instances b → a ≡ b }
{}
