// The units that have records, by id.
ghost use Rattle.std.specs.Prelude.{◌≡◌, ◌++◌, List, IfOk, OnOk, map, position};
ghost use Rattle.std.specs.List.{list_any};
ghost use Rattle.index_files.specs.Units.{known_name, needed_names, unit_ids, unit_name, place_of};
ghost use Rattle.index_files.specs.declared.unit.Unit.{Unit};
ghost use Rattle.index_assembly.specs.UnitNames.{Knows};
ghost use Rattle.index_assembly.specs.Lacks.{is_none, needed_places, places_in};
ghost use Rattle.plan_types.specs.Bytes.{same_text};

use index_files::Unit;
use indexmap::IndexSet;
use plan_types::{List, NoMemory, Text, drop_fields};
use std::alloc::Global;

/// The ids of units, and at the same places the names of their packages.
#[derive(Debug)]
pub(crate) struct UnitNames {
    pub ids: IndexSet<Text>,
    pub names: List<Text>,
}

impl Drop for UnitNames {
    fn drop(self) {
        drop_fields!(self; ids, names);
    }
}

impl UnitNames {
    /// The names of these units, whose ids are in the table.
    pub(crate) fn of(
        alloc: Global,
        ids: IndexSet<Text>,
        units: &[Unit],
    ) -> Result<UnitNames, NoMemory>
        requires { ids.keys ≡ unit_ids units.now }
        ensures { IfOk result (Knows units.now) }
    {
        let names = names_of(alloc, units)?;
        Ok(UnitNames { ids, names })
    }

    /// The places of the units that a unit needs, except those without a record.
    pub(crate) fn places(&self, alloc: Global, unit: &Unit) -> Result<List<usize>, NoMemory>
        ensures { (units : List Unit) → Knows units self.now
            → IfOk result (λ places. places ≡ needed_places units unit.now) }
    {
        let mut places = List::new(alloc);
        for id in unit.record_of.depends.as_slice() {
            self.push_place(&mut places, id)?;
        }
        Ok(places)
    }

    fn push_place(&self, places: &mut List<usize>, id: &Text) -> Result<(), NoMemory>
        ensures { (units : List Unit) → Knows units self.now
            → OnOk result (places.new ≡ places.old ++ places_in (place_of units id.now)) }
    {
        match self.ids.get_index_of(id) {
            None => Ok(()),
            Some(place) => places.push(place),
        }
    }

    /// Whether a unit that it needs has no record.
    pub(crate) fn lacks_one(&self, unit: &Unit) -> bool
        ensures { result ≡ list_any (λ id. is_none
            (position (same_text id) self.now.ids.keys)) unit.now.record_of.depends }
    {
        unit.record_of
            .depends
            .as_slice()
            .iter()
            .any(|id| self.is_missing(id))
    }

    fn is_missing(&self, id: &Text) -> bool
        ensures { result ≡ is_none (position (same_text id.now) self.now.ids.keys) }
    {
        match self.ids.get_index_of(id) {
            None => true,
            Some(_) => false,
        }
    }

    /// The package names of the units that a unit needs, except those without a record.
    pub(crate) fn needs(&self, alloc: Global, unit: &Unit) -> Result<List<Text>, NoMemory>
        ensures { (units : List Unit) → Knows units self.now
            → IfOk result (λ names. names ≡ needed_names units unit.now) }
    {
        let mut names = List::new(alloc);
        for id in unit.record_of.depends.as_slice() {
            self.push_name(&mut names, id)?;
        }
        Ok(names)
    }

    fn push_name(&self, names: &mut List<Text>, id: &Text) -> Result<(), NoMemory>
        ensures { (units : List Unit) → Knows units self.now
            → OnOk result (names.new ≡ names.old ++ known_name units id.now) }
    {
        match self.ids.get_index_of(id) {
            None => Ok(()),
            Some(place) => match self.names.as_slice().get(place) {
                None => Ok(()),
                Some(name) => names.push(name.copy()?),
            },
        }
    }
}

fn names_of(alloc: Global, units: &[Unit]) -> Result<List<Text>, NoMemory>
    ensures { IfOk result (λ names. names ≡ map unit_name units.now) }
{
    let mut names = List::new(alloc);
    for unit in units {
        names.push(unit.record_of.name.copy()?)?;
    }
    Ok(names)
}
