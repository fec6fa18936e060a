// Which instances inside a dependency's versions it allows.
ghost use Rattle.std.specs.Prelude.{◌≡◌, ◌++◌, IfOk, OnOk, filter};
ghost use Rattle.std.specs.List.{list_all, list_any};
ghost use Rattle.solver_index.specs.Places.{between};
ghost use Rattle.solver_index.specs.PlaceRuns.{places_in};
ghost use Rattle.solver_index.specs.Allowed.{allowed_in, has_at, has_exe, has_for, has_lib, is_lib};
ghost use Rattle.plan_types.specs.Bytes.{same_text};

use crate::place_runs::{PlaceRun, PlaceRuns};
use plan_types::{Body, Dep, DepKind, Entry, LibName, List, NoMemory, Range, Text};
use std::alloc::Global;

/// The instances that a dependency allows: those inside its versions that have its libraries or its executable.
pub(crate) fn allowed_by(
    alloc: Global,
    kind: DepKind,
    dep: &Dep,
    inside: &PlaceRuns,
    entries: &[Entry],
) -> Result<PlaceRuns, NoMemory>
    ensures { IfOk result (λ allowed. allowed ≡ filter (has_at kind dep.now entries.now) inside.now) }
{
    allowed_of(alloc, kind, dep, inside.runs(), entries)
}

fn allowed_of(
    alloc: Global,
    kind: DepKind,
    dep: &Dep,
    runs: &[PlaceRun],
    entries: &[Entry],
) -> Result<PlaceRuns, NoMemory>
    ensures { IfOk result (λ allowed. allowed ≡ filter (has_at kind dep.now entries.now) (places_in runs.now)) }
{
    let mut allowed = PlaceRuns::new(alloc);
    for run in runs {
        push_offering(&mut allowed, kind, dep, *run, entries)?;
    }
    Ok(allowed)
}

// The places from `first` on wait to be pushed as one run.
fn push_offering(
    allowed: &mut PlaceRuns,
    kind: DepKind,
    dep: &Dep,
    run: PlaceRun,
    entries: &[Entry],
) -> Result<(), NoMemory>
    ensures { OnOk result (allowed.new
        ≡ allowed.old ++ filter (has_at kind dep.now entries.now) (between run.from run.to)) }
{
    let mut first = run.from;
    for place in run.from..run.to {
        if !offers_at(kind, dep, entries, place) {
            allowed.push_run(first, place)?;
            first = place + 1;
        }
    }
    allowed.push_run(first, run.to)
}

fn offers_at(kind: DepKind, dep: &Dep, entries: &[Entry], place: u64) -> bool
    ensures { result ≡ has_at kind dep.now entries.now place }
{
    match entries.get(place as usize) {
        Some(entry) => has_for(kind, dep, &entry.body),
        None => false,
    }
}

fn has_for(kind: DepKind, dep: &Dep, body: &Body) -> bool
    ensures { result ≡ has_for kind dep.now body.now }
{
    match kind {
        DepKind::Library => has_libs(body, dep.libs.as_slice()),
        DepKind::Tool => has_exe(body, &dep.exe),
        DepKind::Setup => has_libs(body, dep.libs.as_slice()),
    }
}

fn has_libs(body: &Body, libs: &[LibName]) -> bool
    ensures { result ≡ list_all (has_lib body.now) libs.now }
{
    libs.iter().all(|lib| has_lib(body, lib))
}

fn has_lib(body: &Body, lib: &LibName) -> bool
    ensures { result ≡ has_lib body.now lib.now }
{
    match body {
        Body::Source(source) => is_among(lib, source.exposed.libs.as_slice()),
        Body::Installed { .. } => is_lib(lib, &LibName::Main),
    }
}

fn is_among(lib: &LibName, libs: &[LibName]) -> bool
    ensures { result ≡ list_any (is_lib lib.now) libs.now }
{
    libs.iter().any(|other| is_lib(lib, other))
}

fn is_lib(lib: &LibName, other: &LibName) -> bool
    ensures { result ≡ is_lib lib.now other.now }
{
    match (lib, other) {
        (LibName::Main, LibName::Main) => true,
        (LibName::Main, LibName::Named(_)) => false,
        (LibName::Named(_), LibName::Main) => false,
        (LibName::Named(name), LibName::Named(wanted)) => name == wanted,
    }
}

fn has_exe(body: &Body, exe: &Text) -> bool
    ensures { result ≡ has_exe body.now exe.now }
{
    match body {
        Body::Source(source) => is_named(exe, source.exposed.exes.as_slice()),
        Body::Installed { .. } => false,
    }
}

fn is_named(exe: &Text, exes: &[Text]) -> bool
    ensures { result ≡ list_any (same_text exe.now) exes.now }
{
    exes.iter().any(|other| exe == other)
}

/// The instances in a range.
pub fn allowed_in(alloc: Global, range: &Range, entries: &[Entry]) -> Result<List<u64>, NoMemory>
    ensures { IfOk result (λ allowed. allowed ≡ allowed_in range.now entries.now) }
{
    let mut allowed = List::new(alloc);
    for (place, entry) in entries.iter().enumerate() {
        if range.has(&entry.instance.version) {
            allowed.push(place as u64)?;
        }
    }
    Ok(allowed)
}
