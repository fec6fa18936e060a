// The preferred ranges of a project, kept by name.
ghost use Rattle.std.specs.Prelude.{◌≡◌, IfOk};
ghost use Rattle.keyed_lists.specs.Lists.{items_at};
ghost use Rattle.plan_types.specs.Bytes.{same_text};
ghost use Rattle.qualified_goals.specs.Names.{Name};
ghost use Rattle.solver_index.specs.Orders.{ranges_for};

use indexmap::IndexMap;
use keyed_lists::{Lists, items_at, push_at};
use plan_types::{List, Named, NoMemory, Range, Text};
use std::alloc::Global;

/// Ranges by the names of their packages.
pub(crate) type RangesByName = Lists<Text, Range>;

pub(crate) fn ranges_by_name(alloc: Global, all: &[Named]) -> Result<RangesByName, NoMemory>
    ensures { IfOk result (λ ranges. (name : Name) → items_at same_text ranges name ≡ ranges_for name all.now) }
{
    let mut ranges = IndexMap::new(alloc);
    for named in all {
        let range = named.range.copy(alloc)?;
        push_at(alloc, &mut ranges, named.name.copy()?, range)?;
    }
    Ok(ranges)
}

/// The ranges for a name.
pub(crate) fn ranges_for(
    alloc: Global,
    all: &RangesByName,
    name: &Text,
) -> Result<List<Range>, NoMemory>
    ensures { IfOk result (λ ranges. ranges ≡ items_at same_text all.now name.now) }
{
    let ranges = items_at(all, name);
    let mut copies = List::new(alloc);
    for range in ranges {
        copies.push(range.copy(alloc)?)?;
    }
    Ok(copies)
}
