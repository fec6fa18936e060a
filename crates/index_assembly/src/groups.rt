// Entries grouped by the names of their packages.
ghost use Rattle.std.specs.Prelude.{◌≡◌, ◌∷◌, List, ℕ, [], false, IfOk, OnOk};
ghost use Rattle.index_assembly.specs.Entries.{entries_named};
ghost use Rattle.plan_types.specs.Bytes.{same_text};

use indexmap::IndexMap;
use plan_types::{Entry, List, NoMemory, Text, drop_fields};
use std::alloc::Global;
use std::mem;

/// Entries grouped by the names of their packages, in the order of insertion.
#[derive(Debug)]
pub(crate) struct EntriesByName {
    pub by_name: IndexMap<Text, List<Entry>>,
}

impl Drop for EntriesByName {
    fn drop(self) {
        drop_fields!(self; by_name);
    }
}

impl EntriesByName {
    ghost use Rattle.index_assembly.specs.Groups.{Adds, held};

    pub(crate) fn of(alloc: Global, entries: List<Entry>) -> Result<EntriesByName, NoMemory>
        ensures { IfOk result (λ groups. (name : List ℕ) → held groups name ≡ entries_named name entries) }
    {
        let mut groups = EntriesByName {
            by_name: IndexMap::new(alloc),
        };
        for entry in entries.into_vec() {
            let name = entry.instance.name.copy()?;
            groups.add(&name, alone(alloc, entry)?)?;
        }
        Ok(groups)
    }

    fn add(&mut self, name: &Text, more: List<Entry>) -> Result<(), NoMemory>
        ensures { OnOk result (Adds self.old self.new name.now more) }
    {
        let mut more = more;
        match self.by_name.get_mut(name) {
            None => {
                self.by_name.insert(name.copy()?, more)?;
                Ok(())
            }
            Some(there) => there.append(&mut more),
        }
    }

    /// Takes out the entries of a name.
    pub(crate) fn take(&mut self, alloc: Global, name: &Text) -> List<Entry>
        ensures taken { result ≡ held self.old name.now }
        ensures others { (other : List ℕ) → same_text name.now other ≡ false
            → held self.new other ≡ held self.old other }
    {
        match self.by_name.get_mut(name) {
            Some(there) => mem::replace(there, List::new(alloc)),
            None => List::new(alloc),
        }
    }
}

fn alone(alloc: Global, entry: Entry) -> Result<List<Entry>, NoMemory>
    ensures { IfOk result (λ entries. entries ≡ entry ∷ []) }
{
    let mut entries = List::new(alloc);
    entries.push(entry)?;
    Ok(entries)
}
