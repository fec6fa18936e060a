// Sets of names in the order of insertion.
ghost use Rattle.std.specs.Prelude.{◌≡◌, OnOk};
ghost use Rattle.index_files.specs.Names.{put, put_all};

use indexmap::IndexSet;
use plan_types::{NoMemory, Text};

/// Adds a name, if it is new.
pub(crate) fn put(names: &mut IndexSet<Text>, name: &Text) -> Result<(), NoMemory>
    ensures { OnOk result (names.new.keys ≡ put names.old.keys name.now) }
{
    if !names.contains(name) {
        names.insert(name.copy()?)?;
    }
    Ok(())
}

/// Adds all of these names.
pub(crate) fn put_all(names: &mut IndexSet<Text>, others: &[Text]) -> Result<(), NoMemory>
    ensures { OnOk result (names.new.keys ≡ put_all names.old.keys others.now) }
{
    for other in others {
        put(names, other)?;
    }
    Ok(())
}
