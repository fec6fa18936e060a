// Contradictory paths are left out, and repeated settings are removed.
ghost use Rattle.std.specs.Prelude.{◌≡◌, IfOk, map};
ghost use Rattle.conditionals.specs.Paths.{clean_path, clean_paths};
ghost use Rattle.conditionals.specs.Settings.{setting_of};

use indexmap::IndexMap;
use plan_types::{FlagSet, List, NoMemory, Text};
use std::alloc::Global;

/// The paths without contradictory ones (a flag on and off), with each setting once.
pub fn clean(alloc: Global, paths: List<List<FlagSet>>) -> Result<List<List<FlagSet>>, NoMemory>
    ensures { IfOk result (λ kept. kept ≡ clean_paths paths) }
{
    let mut kept = List::new(alloc);
    for path in paths.into_vec() {
        if let Some(path) = clean_path(alloc, path)? {
            kept.push(path)?;
        }
    }
    Ok(kept)
}

fn clean_path(alloc: Global, path: List<FlagSet>) -> Result<Option<List<FlagSet>>, NoMemory>
    ensures { IfOk result (λ kept. kept ≡ clean_path path) }
{
    let mut kept: IndexMap<Text, bool> = IndexMap::new(alloc);
    for setting in path.into_vec() {
        let FlagSet { name, on } = setting;
        match kept.get(&name) {
            None => {
                kept.insert(name, on)?;
            }
            Some(before) => {
                if *before != on {
                    return Ok(None);
                }
            }
        }
    }
    Ok(Some(settings_of(alloc, kept)?))
}

fn settings_of(alloc: Global, kept: IndexMap<Text, bool>) -> Result<List<FlagSet>, NoMemory>
    ensures { IfOk result (λ settings. settings ≡ map setting_of kept.entries) }
{
    let mut settings = List::with_room(alloc, kept.len())?;
    for (name, on) in kept {
        settings.push(FlagSet { name, on })?;
    }
    Ok(settings)
}
