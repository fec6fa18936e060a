// The defaults of flags, by their numbers.
ghost use Rattle.std.specs.Prelude.{◌≡◌, ℕ, List, IfOk, find, length};
ghost use Rattle.plan_types.specs.declared.index.Package.{Package};
ghost use Rattle.plan_types.specs.Packages.{declared_by, entries_of};
ghost use Rattle.qualified_goals.specs.Names.{NameTable};
ghost use Rattle.solver_index.specs.Defaults.{AreDefaults, AreDefaultsIn, AreDefaultsOf, default_in, default_kept, default_of, has_number};
ghost use Rattle.solver_index.specs.Places.{entry_at};

use crate::places::flag_number;
use indexmap::IndexMap;
use plan_types::{Entry, FlagDecl, List, NoMemory, Package};
use qualified_goals::Names;
use std::alloc::Global;

/// The defaults of the flags that an instance declares, by their numbers.
pub type Defaults = IndexMap<u64, bool>;

/// The defaults by package and instance.
pub(crate) fn defaults_of(
    alloc: Global,
    packages: &[Package],
    names: &Names,
) -> Result<List<List<Defaults>>, NoMemory>
    ensures { IfOk result (AreDefaults packages.now names.now) }
{
    let mut rows = List::new(alloc);
    for found in packages {
        rows.push(defaults_in(alloc, found.entries.as_slice(), names)?)?;
    }
    Ok(rows)
}

fn defaults_in(alloc: Global, entries: &[Entry], names: &Names) -> Result<List<Defaults>, NoMemory>
    ensures { IfOk result (AreDefaultsIn entries.now names.now) }
{
    let mut row = List::new(alloc);
    for entry in entries {
        row.push(flag_defaults(alloc, names, entry.body.declared_flags())?)?;
    }
    Ok(row)
}

// The first declaration of a number counts.
fn flag_defaults(alloc: Global, names: &Names, flags: &[FlagDecl]) -> Result<Defaults, NoMemory>
    ensures { IfOk result (λ defaults. (f : ℕ)
        → default_kept defaults f ≡ default_in (find (has_number names.now f) flags.now)) }
{
    let mut defaults = IndexMap::new(alloc);
    for decl in flags {
        let number = flag_number(names, &decl.name);
        if !defaults.contains_key(&number) {
            defaults.insert(number, decl.default)?;
        }
    }
    Ok(defaults)
}

/// The default that an instance declares for a flag; off without a declaration.
pub(crate) fn default_at(rows: &[List<Defaults>], p: u64, i: u64, f: u64) -> bool
    ensures { (packages : List Package) (names : NameTable) → AreDefaults packages names rows.now
        → result ≡ default_of names f (entry_at (entries_of packages p) i).body }
{
    match rows.get(p as usize) {
        Some(row) => default_by(row.as_slice(), i, f),
        None => false,
    }
}

fn default_by(row: &[Defaults], i: u64, f: u64) -> bool
    ensures { (entries : List Entry) (names : NameTable) → AreDefaultsIn entries names row.now
        → result ≡ default_of names f (entry_at entries i).body }
{
    match row.get(i as usize) {
        Some(defaults) => default_kept(defaults, f),
        None => false,
    }
}

fn default_kept(defaults: &Defaults, f: u64) -> bool
    ensures { result ≡ default_kept defaults.now f }
{
    defaults.get(&f).copied().unwrap_or(false)
}
