// A law that crates above use.

ghost use Rattle.std.specs.Prelude.{◌≡◌, ℕ, List};
ghost use Rattle.std.specs.declared.result.Result.{Result};
ghost use Rattle.plan_types.specs.declared.description.Description.{Description};
ghost use Rattle.plan_types.specs.declared.element.Element.{Element};
ghost use Rattle.description.specs.declared.fault_order.At.{At};
ghost use Rattle.description.specs.Description.{Describes};

use component_cycle::one_first;

/// The elements of a file have at most one outcome: one description or one first fault.
pub fn one_outcome()
    ensures { (items : List Element) (digest : List ℕ) (a b : Result Description At)
        → Describes items digest a → Describes items digest b → a ≡ b }
{
    one_first();
}
