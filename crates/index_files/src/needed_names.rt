// The names that unit records mention.
ghost use Rattle.std.specs.Prelude.{◌≡◌, ◌++◌, List, ℕ, IfOk, OnOk};
ghost use Rattle.index_files.specs.Units.{known_name, needed_by, needed_names};

use crate::unit::Unit;
use crate::units::Units;
use indexmap::IndexMap;
use plan_types::{List, NoMemory, Text, drop_fields};
use std::alloc::Global;

/// For each package with records, the names that these mention.
#[derive(Debug)]
pub(crate) struct MentionedNames {
    pub by_name: IndexMap<Text, List<Text>>,
}

impl Drop for MentionedNames {
    fn drop(self) {
        drop_fields!(self; by_name);
    }
}

impl MentionedNames {
    ghost use Rattle.index_files.specs.NeededNames.{Adds, needed_in};

    pub(crate) fn of(alloc: Global, units: &Units) -> Result<MentionedNames, NoMemory>
        ensures { IfOk result (λ needed. (name : List ℕ) → needed_in needed name ≡ needed_by units.now name) }
    {
        let mut needed = MentionedNames {
            by_name: IndexMap::new(alloc),
        };
        for unit in units.as_slice() {
            let names = needed_names(alloc, units, unit)?;
            needed.add(&unit.record_of.name, names)?;
        }
        Ok(needed)
    }

    /// The names that the records of a package mention.
    pub(crate) fn by(&self, name: &Text) -> &[Text]
        ensures { result.now ≡ needed_in self.now name.now }
    {
        match self.by_name.get(name) {
            None => &[],
            Some(names) => names.as_slice(),
        }
    }

    fn add(&mut self, name: &Text, names: List<Text>) -> Result<(), NoMemory>
        ensures { OnOk result (Adds self.old self.new name.now names) }
    {
        let mut names = names;
        match self.by_name.get_mut(name) {
            None => {
                self.by_name.insert(name.copy()?, names)?;
                Ok(())
            }
            Some(there) => there.append(&mut names),
        }
    }
}

// The package names of the units that a unit needs, except those without a record.
fn needed_names(alloc: Global, units: &Units, unit: &Unit) -> Result<List<Text>, NoMemory>
    ensures { IfOk result (λ names. names ≡ needed_names units.now unit.now) }
{
    let mut names = List::new(alloc);
    for id in unit.record_of.depends.as_slice() {
        push_known(&mut names, units, id)?;
    }
    Ok(names)
}

fn push_known(names: &mut List<Text>, units: &Units, id: &Text) -> Result<(), NoMemory>
    ensures { OnOk result (names.new ≡ names.old ++ known_name units.now id.now) }
{
    match units.place_of(id) {
        None => Ok(()),
        Some(place) => names.push(units.as_slice()[place].record_of.name.copy()?),
    }
}
