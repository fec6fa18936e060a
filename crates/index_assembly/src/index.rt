// The index of what was read: its entries, packages and orders.
ghost use Rattle.std.specs.Prelude.{◌≡◌, ◌++◌, List, ℕ, IfOk, OnOk, map, flat_map};
ghost use Rattle.std.specs.List.{IsDistinct};
ghost use Rattle.index_files.specs.Names.{is_listed};
ghost use Rattle.index_files.specs.declared.closure.FoundName.{FoundName};
ghost use Rattle.index_assembly.specs.Entries.{local_entries};
ghost use Rattle.index_assembly.specs.Index.{IsIndexOf, is_extra, ordered_index, warning_at, warnings_of};
ghost use Rattle.plan_types.specs.Bytes.{same_text};

use crate::groups::EntriesByName;
use crate::order::{sort_packages, sort_skipped};
use crate::packages::{GatheredPackages, gather, source_entry};
use crate::units::entries_of;
use index_files::{Local, Readings};
use indexmap::IndexSet;
use plan_types::{Entry, Index, List, Named, NoMemory, Text, Warning};
use std::alloc::Global;

/// The index of what was read of a folder. `extra` has the extra packages of the project.
pub fn index_of(alloc: Global, readings: Readings, extra: &List<Named>) -> Result<Index, NoMemory>
    requires { IsDistinct same_text (map (λ f. f.name) readings.found) }
    ensures { IfOk result (IsIndexOf extra.now readings) }
{
    let Readings {
        locals,
        units,
        found,
    } = readings;
    let mut warnings = List::new(alloc);
    let local_entries = local_entries(alloc, locals, &mut warnings)?;
    let unit_entries = entries_of(alloc, units)?;
    let locals = EntriesByName::of(alloc, local_entries)?;
    let units = EntriesByName::of(alloc, unit_entries)?;
    let extra = extra_names(alloc, extra.as_slice())?;
    let gathered = gather(alloc, found, locals, units, &extra)?;
    in_order(gathered, warnings)
}

fn local_entries(
    alloc: Global,
    locals: List<Local>,
    warnings: &mut List<Warning>,
) -> Result<List<Entry>, NoMemory>
    ensures entries { IfOk result (λ entries. entries ≡ local_entries locals) }
    ensures warnings { OnOk result (warnings.new ≡ warnings.old ++ flat_map warnings_of locals) }
{
    let mut entries = List::new(alloc);
    for local in locals.into_vec() {
        push_warnings(alloc, warnings, &local)?;
        entries.push(source_entry(alloc, true, local.into_source())?)?;
    }
    Ok(entries)
}

fn push_warnings(alloc: Global, warnings: &mut List<Warning>, local: &Local) -> Result<(), NoMemory>
    ensures { OnOk result (warnings.new ≡ warnings.old ++ warnings_of local.now) }
{
    for line in local.source.description.warnings.as_slice() {
        warnings.push(warning_at(alloc, &local.path, *line)?)?;
    }
    Ok(())
}

fn warning_at(alloc: Global, path: &Text, line: u32) -> Result<Warning, NoMemory>
    ensures { IfOk result (λ warning. warning ≡ warning_at path.now line) }
{
    let path = path.copy()?;
    let word = Text::from_str(alloc, "build-tools")?;
    Ok(Warning { path, line, word })
}

fn extra_names(alloc: Global, extra: &[Named]) -> Result<IndexSet<Text>, NoMemory>
    ensures { IfOk result (λ names. (name : List ℕ) → is_listed names.keys name ≡ is_extra extra.now name) }
{
    let mut names = IndexSet::new(alloc);
    for named in extra {
        names.insert(named.name.copy()?)?;
    }
    Ok(names)
}

fn in_order(gathered: GatheredPackages, warnings: List<Warning>) -> Result<Index, NoMemory>
    ensures { IfOk result (λ index. index ≡ ordered_index gathered.packages gathered.skipped warnings) }
{
    let GatheredPackages { packages, skipped } = gathered;
    let mut packages = packages.into_vec();
    sort_packages(&mut packages)?;
    let mut skipped = skipped.into_vec();
    sort_skipped(&mut skipped)?;
    Ok(Index {
        packages: List::from_vec(packages),
        skipped: List::from_vec(skipped),
        warnings,
    })
}
