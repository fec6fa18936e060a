// The places of installed units, by their ids.
ghost use Rattle.std.specs.Prelude.{◌≡◌, List, IfOk, length};
ghost use Rattle.plan_types.specs.declared.index.Package.{Package};
ghost use Rattle.keyed_lists.specs.Lists.{items_at};
ghost use Rattle.qualified_goals.specs.Names.{Name};
ghost use Rattle.solver_index.specs.Allowed.{allowed_unit, is_unit};
ghost use Rattle.solver_index.specs.Places.{places};
ghost use Rattle.solver_index.specs.Units.{AreUnits, AreUnitsOf};
ghost use Rattle.plan_types.specs.Bytes.{same_text};
ghost use Rattle.plan_types.specs.Packages.{is_installed, package_at};

use indexmap::IndexMap;
use keyed_lists::{Lists, items_at, push_at};
use plan_types::{Body, Entry, List, NoMemory, Package, Text};
use std::alloc::Global;

/// The places of the units of a package, by their ids.
pub(crate) type UnitPlaces = Lists<Text, u64>;

/// The places of the units of each package, by their ids.
pub(crate) fn units_of(alloc: Global, packages: &[Package]) -> Result<List<UnitPlaces>, NoMemory>
    ensures { IfOk result (AreUnits packages.now (length packages.now)) }
{
    let mut units = List::new(alloc);
    for found in packages {
        units.push(units_in(alloc, found)?)?;
    }
    Ok(units)
}

// A local package hides its units.
fn units_in(alloc: Global, found: &Package) -> Result<UnitPlaces, NoMemory>
    ensures { IfOk result (AreUnitsOf found.now) }
{
    if found.local {
        return Ok(IndexMap::new(alloc));
    }
    unit_places(alloc, found.entries.as_slice())
}

fn unit_places(alloc: Global, entries: &[Entry]) -> Result<UnitPlaces, NoMemory>
    ensures { IfOk result (λ units. (id : Name) → items_at same_text units id ≡ places (is_unit id) entries.now) }
{
    let mut units = IndexMap::new(alloc);
    for (place, entry) in entries.iter().enumerate() {
        if entry.body.is_installed() {
            push_at(alloc, &mut units, entry.instance.unit.copy()?, place as u64)?;
        }
    }
    Ok(units)
}

/// The places of the units with this id in a package; a local package has none.
pub(crate) fn places_of<'a>(units: &'a [UnitPlaces], p: u64, id: &Text) -> &'a [u64]
    ensures { (packages : List Package) → AreUnits packages (length packages) units.now
        → result.now ≡ allowed_unit id.now (package_at packages p) }
{
    match units.get(p as usize) {
        Some(found) => items_at(found, id),
        None => &[],
    }
}
