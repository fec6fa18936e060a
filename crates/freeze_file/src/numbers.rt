// Sets of numbers.
ghost use Rattle.std.specs.Prelude.{◌≡◌, false, OnOk, IfOk};
ghost use Rattle.freeze_file.specs.Steps.{AddsNumber, has};

use indexmap::IndexSet;
use plan_types::NoMemory;

pub(crate) fn add(set: &mut IndexSet<u64>, number: u64) -> Result<(), NoMemory>
    ensures { OnOk result (AddsNumber set.old set.new number) }
{
    set.insert(number)?;
    Ok(())
}

pub(crate) fn has(set: &IndexSet<u64>, number: u64) -> bool
    ensures { result ≡ has set.now number }
{
    set.contains(&number)
}
