// A path with a line.
ghost use Rattle.std.specs.Prelude.{◌≡◌, ◌++◌, OnOk};
ghost use Rattle.plan_print.specs.Place.{place_text};

use plan_types::{NoMemory, Text};
use std::alloc::Global;

// Appends a path, and its line unless that is 0.
pub fn push_where(alloc: Global, text: &mut Text, path: &str, line: u32) -> Result<(), NoMemory>
    ensures { OnOk result (text.new ≡ text.old ++ place_text path.now line) }
{
    if line == 0 {
        return text.push_str(path);
    }
    text.push_str(path)?;
    text.push_str(":")?;
    let digits = format!(in alloc; "{line}")?;
    text.push_str(digits.as_str())
}
