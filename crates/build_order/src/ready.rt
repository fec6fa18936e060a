// The nodes that are ready, the least first.
ghost use Rattle.std.specs.Prelude.{◌≡◌, ◌↔◌, ◌⊎◌, ℕ, Contains, OnOk};
ghost use Rattle.build_order.specs.Building.{TakesLeast};

use plan_types::NoMemory;
use std::collections::BTreeSet;

pub(crate) fn add(ready: &mut BTreeSet<usize>, node: usize) -> Result<(), NoMemory>
    ensures { OnOk result ((u : ℕ) → Contains ready.new.keys u ↔ Contains ready.old.keys u ⊎ (u ≡ node)) }
{
    ready.insert(node)?;
    Ok(())
}

pub(crate) fn take_least(ready: &mut BTreeSet<usize>) -> Option<usize>
    ensures { TakesLeast ready.old.keys ready.new.keys result }
{
    ready.pop_first()
}
