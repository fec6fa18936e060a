// A text for each of some names.

ghost use Rattle.std.specs.Prelude.{◌≡◌, OnOk};
ghost use Rattle.older_fields.specs.NameMaps.{with_first};

use indexmap::IndexMap;
use plan_types::{NoMemory, Text};

/// A text for each of some names, in the order of insertion.
pub type NameMap = IndexMap<Text, Text>;

/// Adds a name, if it is new.
pub fn put_first(names: &mut NameMap, name: Text, text: Text) -> Result<(), NoMemory>
    ensures { OnOk result (names.new.entries ≡ with_first names.old.entries (name, text)) }
{
    if names.contains_key(&name) {
        return Ok(());
    }
    names.insert(name, text)?;
    Ok(())
}
