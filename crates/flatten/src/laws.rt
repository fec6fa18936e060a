// Laws that crates above use.

ghost use Rattle.std.specs.Prelude.{◌≡◌, ℕ, true, ◌&&◌, Some, slice_get};
ghost use Rattle.std.specs.List.{list_any};
ghost use Rattle.plan_types.specs.declared.condition.Env.{Env};
ghost use Rattle.plan_types.specs.declared.index.FlatDep.{FlatDep};
ghost use Rattle.conditionals.specs.Value.{value};
ghost use Rattle.conditionals.specs.Paths.{is_wanted};
ghost use Rattle.flatten.specs.WholeCondition.{whole_condition};
ghost use Rattle.flatten.specs.Counting.{Parts, flags_of, are_met};
ghost use Rattle.flatten.specs.Demands.{ExternalDep, demands_at, stanza_of};

use conditionals::{no_two_paths_hold, some_path_holds};

/// Under any flags and stanzas, some demand of a dependency counts iff its component's stanza is on and its whole
/// condition is Yes.
pub fn counts_as_its_condition()
    ensures { (env : Env) (at : ExternalDep) (parts : Parts)
        → list_any (λ flat. are_met parts flat.when) (demands_at env at)
        ≡ (are_met parts (stanza_of at.component.kind)
        && is_wanted true (value env (flags_of parts) (whole_condition at.component at.guarded))) }
{
    some_path_holds();
}

/// No two demands of a dependency count together.
pub fn no_two_count()
    ensures { (env : Env) (at : ExternalDep) (parts : Parts) (i j : ℕ) (flat other : FlatDep)
        → slice_get (demands_at env at) i ≡ Some flat
        → slice_get (demands_at env at) j ≡ Some other
        → are_met parts flat.when ≡ true → are_met parts other.when ≡ true → i ≡ j }
{
    no_two_paths_hold();
}
