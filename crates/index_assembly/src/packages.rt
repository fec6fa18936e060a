// Packages, each made of its local package, or of its releases and units.
ghost use Rattle.std.specs.Prelude.{◌≡◌, ◌++◌, ◌∷◌, List, ℕ, [], IfOk, OnOk, length, map, flat_map};
ghost use Rattle.std.specs.List.{IsDistinct};
ghost use Rattle.index_files.specs.Names.{is_listed};
ghost use Rattle.index_files.specs.declared.closure.FoundName.{FoundName};
ghost use Rattle.index_assembly.specs.Entries.{entries_in, is_unit_below, is_version_below, release_entries, source_entry};
ghost use Rattle.index_assembly.specs.Groups.{held};
ghost use Rattle.index_assembly.specs.Index.{package_from, skipped_by, skipped_in};
ghost use Rattle.index_assembly.specs.Order.{in_order};
ghost use Rattle.index_assembly.specs.Packages.{AreGathered, KeepsOthers, package_with};
ghost use Rattle.flatten.specs.Sound.{source_origin};
ghost use Rattle.plan_types.specs.Bytes.{same_text};

use crate::groups::EntriesByName;
use crate::order::{sort_releases, sort_units};
use index_files::{FoundName, Judged, Release};
use indexmap::IndexSet;
use plan_types::{Body, Entry, Instance, List, NoMemory, Origin, Package, Skipped, Source, Text};
use std::alloc::Global;

/// Packages and skipped files, both still unordered.
#[derive(Debug, Drop)]
pub(crate) struct GatheredPackages {
    pub packages: List<Package>,
    pub skipped: List<Skipped>,
}

/// The packages of these names.
pub(crate) fn gather(
    alloc: Global,
    found: List<FoundName>,
    locals: EntriesByName,
    units: EntriesByName,
    extra: &IndexSet<Text>,
) -> Result<GatheredPackages, NoMemory>
    requires { IsDistinct same_text (map (λ f. f.name) found) }
    ensures { IfOk result (AreGathered (is_listed extra.now.keys) (held locals) (held units) found) }
{
    let mut locals = locals;
    let mut units = units;
    let mut gathered = GatheredPackages {
        packages: List::new(alloc),
        skipped: List::new(alloc),
    };
    for one in found.into_vec() {
        let own = locals.take(alloc, &one.name);
        let others = units.take(alloc, &one.name);
        gathered.add(alloc, one, own, others, extra)?;
    }
    Ok(gathered)
}

impl GatheredPackages {
    fn add(
        &mut self,
        alloc: Global,
        found: FoundName,
        own: List<Entry>,
        units: List<Entry>,
        extra: &IndexSet<Text>,
    ) -> Result<(), NoMemory>
        ensures packages { OnOk result (self.new.packages ≡ self.old.packages
            ++ package_with (is_listed extra.now.keys) own units found ∷ []) }
        ensures skipped { OnOk result (self.new.skipped ≡ self.old.skipped ++ skipped_in found) }
    {
        let FoundName { name, releases } = found;
        let others = entries_with(alloc, releases, units, &mut self.skipped)?;
        let is_extra = extra.contains(&name);
        self.packages
            .push(package_from(name, is_extra, own, others))
    }
}

fn package_from(name: Text, extra: bool, own: List<Entry>, others: List<Entry>) -> Package
    ensures { result ≡ package_from name extra own others }
{
    if own.is_empty() {
        return Package {
            name,
            local: false,
            extra,
            entries: others,
        };
    }
    Package {
        name,
        local: true,
        extra,
        entries: own,
    }
}

// The readable releases in order, followed by the units in order. Faulty releases go into `skipped`.
fn entries_with(
    alloc: Global,
    releases: List<Release>,
    units: List<Entry>,
    skipped: &mut List<Skipped>,
) -> Result<List<Entry>, NoMemory>
    ensures entries { IfOk result (λ entries. entries ≡ release_entries releases ++ in_order is_unit_below units) }
    ensures skipped { OnOk result (skipped.new ≡ skipped.old ++ flat_map (λ r. skipped_by r.path r.judged) releases) }
{
    let mut entries = readable(alloc, releases, skipped)?.into_vec();
    sort_releases(&mut entries)?;
    let mut units = units.into_vec();
    sort_units(&mut units)?;
    joined(entries, units)
}

fn joined(entries: Vec<Entry>, units: Vec<Entry>) -> Result<List<Entry>, NoMemory>
    ensures { IfOk result (λ all. all ≡ entries.items ++ units.items) }
{
    let mut all = List::from_vec(entries);
    for unit in units {
        all.push(unit)?;
    }
    Ok(all)
}

fn readable(
    alloc: Global,
    releases: List<Release>,
    skipped: &mut List<Skipped>,
) -> Result<List<Entry>, NoMemory>
    ensures entries { IfOk result (λ entries. entries ≡ flat_map (λ r. entries_in r.judged) releases) }
    ensures skipped { OnOk result (skipped.new ≡ skipped.old ++ flat_map (λ r. skipped_by r.path r.judged) releases) }
{
    let mut entries = List::new(alloc);
    for release in releases.into_vec() {
        push_release(alloc, &mut entries, skipped, release)?;
    }
    Ok(entries)
}

fn push_release(
    alloc: Global,
    entries: &mut List<Entry>,
    skipped: &mut List<Skipped>,
    release: Release,
) -> Result<(), NoMemory>
    ensures entries { OnOk result (entries.new ≡ entries.old ++ entries_in release.judged) }
    ensures skipped { OnOk result (skipped.new ≡ skipped.old ++ skipped_by release.path release.judged) }
{
    let Release { path, judged } = release;
    match judged {
        Judged::Readable(source) => entries.push(source_entry(alloc, false, source)?),
        Judged::Faulty { line, cause } => skipped.push(Skipped { path, line, cause }),
    }
}

/// The entry of a release or a local package.
pub(crate) fn source_entry(alloc: Global, local: bool, source: Source) -> Result<Entry, NoMemory>
    ensures { IfOk result (λ entry. entry ≡ source_entry local source) }
{
    let name = source.description.name.copy()?;
    let version = source.description.version.copy(alloc)?;
    Ok(Entry {
        instance: Instance {
            name,
            version,
            origin: source_origin(local),
            unit: Text::new(alloc),
        },
        body: Body::Source(source),
    })
}

fn source_origin(local: bool) -> Origin
    ensures { result ≡ source_origin local }
{
    if local { Origin::Local } else { Origin::Source }
}
