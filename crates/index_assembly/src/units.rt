// The entries of units, without those that lack a needed unit.
ghost use Rattle.std.specs.Prelude.{◌≡◌, ◌++◌, ◌+◌, ◌<◌, List, false, IfOk, OnOk, length, map, slice_index_or};
ghost use Rattle.index_files.specs.declared.unit.Unit.{Unit};
ghost use Rattle.index_assembly.specs.Entries.{entry_unless, unit_entries, unit_entry, unit_instance};
ghost use Rattle.index_assembly.specs.UnitNames.{Knows};
ghost use Rattle.index_assembly.specs.Lacks.{AreLacking, lacks_one, needed_places};
ghost use Rattle.index_assembly.specs.Units.{AreEntriesOf};

use crate::unit_names::UnitNames;
use broken_units::leading;
use index_files::{Unit, Units};
use plan_types::{Body, Entry, Instance, List, NoMemory, Origin, UnitRecord};
use std::alloc::Global;

/// The entries of the units from which no unit without a record is reached.
pub(crate) fn entries_of(alloc: Global, units: Units) -> Result<List<Entry>, NoMemory>
    ensures { IfOk result (AreEntriesOf units) }
{
    let (units, ids) = units.into_parts();
    let known = UnitNames::of(alloc, ids, units.as_slice())?;
    let lacking = lacking_of(alloc, units.as_slice(), &known)?;
    kept_entries(alloc, units, lacking.as_slice(), &known)
}

// Marks the units from which a unit without a record is reached.
fn lacking_of(alloc: Global, units: &[Unit], known: &UnitNames) -> Result<List<bool>, NoMemory>
    requires { Knows units.now known.now }
    ensures { IfOk result (AreLacking units.now) }
{
    let needs = needs_of(alloc, units, known)?;
    let marks = marks_of(alloc, units, known)?;
    leading(alloc, needs.as_slice(), marks.as_slice())
}

fn needs_of(alloc: Global, units: &[Unit], known: &UnitNames) -> Result<List<List<usize>>, NoMemory>
    requires { Knows units.now known.now }
    ensures { IfOk result (λ needs. needs ≡ map (needed_places units.now) units.now) }
{
    let mut needs = List::new(alloc);
    for unit in units {
        needs.push(known.places(alloc, unit)?)?;
    }
    Ok(needs)
}

fn marks_of(alloc: Global, units: &[Unit], known: &UnitNames) -> Result<List<bool>, NoMemory>
    requires { Knows units.now known.now }
    ensures { IfOk result (λ marks. marks ≡ map (lacks_one units.now) units.now) }
{
    let mut marks = List::new(alloc);
    for unit in units {
        marks.push(known.lacks_one(unit))?;
    }
    Ok(marks)
}

fn kept_entries(
    alloc: Global,
    units: List<Unit>,
    lacking: &[bool],
    known: &UnitNames,
) -> Result<List<Entry>, NoMemory>
    requires knows { Knows units known.now }
    requires as_many { length lacking.now ≡ length units }
    ensures { IfOk result (λ entries. entries ≡ unit_entries lacking.now units) }
{
    let mut entries = List::new(alloc);
    let mut place = 0;
    for unit in units.into_vec() {
        push_unless(alloc, &mut entries, is_marked(lacking, place), unit, known)?;
        place = next_place(place, lacking);
    }
    Ok(entries)
}

fn is_marked(marks: &[bool], place: usize) -> bool
    ensures { result ≡ slice_index_or marks.now place false }
{
    match marks.get(place) {
        Some(mark) => *mark,
        None => false,
    }
}

fn next_place(place: usize, marks: &[bool]) -> usize
    ensures { place < length marks.now → result ≡ place + 1 }
{
    if place < marks.len() {
        place + 1
    } else {
        place
    }
}

fn push_unless(
    alloc: Global,
    entries: &mut List<Entry>,
    lacks: bool,
    unit: Unit,
    known: &UnitNames,
) -> Result<(), NoMemory>
    ensures { (units : List Unit) → Knows units known.now
        → OnOk result (entries.new ≡ entries.old ++ entry_unless lacks units unit) }
{
    if !lacks {
        entries.push(unit_entry(alloc, unit, known)?)?;
    }
    Ok(())
}

fn unit_entry(alloc: Global, unit: Unit, known: &UnitNames) -> Result<Entry, NoMemory>
    ensures { (units : List Unit) → Knows units known.now → IfOk result (λ entry. entry ≡ unit_entry units unit) }
{
    let needs = known.needs(alloc, &unit)?;
    let record_of = unit.into_record();
    let instance = instance_of(alloc, &record_of)?;
    Ok(Entry {
        instance,
        body: Body::Installed { record_of, needs },
    })
}

fn instance_of(alloc: Global, record_of: &UnitRecord) -> Result<Instance, NoMemory>
    ensures { IfOk result (λ instance. instance ≡ unit_instance record_of.now) }
{
    Ok(Instance {
        name: record_of.name.copy()?,
        version: record_of.version.copy(alloc)?,
        origin: Origin::Installed,
        unit: record_of.id.copy()?,
    })
}
