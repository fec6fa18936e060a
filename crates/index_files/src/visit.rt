// The releases of one name.
ghost use Rattle.std.specs.Prelude.{◌≡◌, IfOk, IfSome, IsErrOf};
ghost use Rattle.outside_folder.specs.Calls.{Leaves};
ghost use Rattle.outside_folder.specs.Folder.{IsInOrder};
ghost use Rattle.index_files.specs.Ground.{ground_of};
ghost use Rattle.index_files.specs.Releases.{names_below, release_paths};
ghost use Rattle.index_files.specs.Steps.{AreJudged, Reads, Visits};

use crate::file::read_counted;
use crate::places::{name_dir, release_path};
use crate::read_before::ReadBefore;
use crate::release::{Release, releases_of};
use crate::totals::Totals;
use crate::versions::{VersionDir, versions_among};
use outside_folder::{Folder, Name, Trouble, list_names};
use plan_types::{Env, List, NoMemory, Places, Text};
use std::alloc::Global;

/// Reads the releases of a name; none if the files are too many. A local name has no releases.
pub(crate) fn read_name<F: Folder>(
    alloc: Global,
    before: &ReadBefore,
    name: &Text,
    totals: &mut Totals,
    folder: &mut F,
) -> Result<Option<List<Release>>, Trouble>
    ensures observed { IfSome (F.tells folder.old)
        (λ files. IfOk result (Visits (ground_of before.now) files name.now totals.old totals.new)) }
    ensures judged { IfOk result (λ read. IfSome read (AreJudged before.now.env.now name.now)) }
    ensures folder { Leaves F.tells F.faults folder.old folder.new (IsErrOf result Trouble.Failed) }
{
    if before.locals.names.contains(name) {
        return Ok(Some(List::new(alloc)));
    }
    read_releases(alloc, before.places, before.env, name, totals, folder)
}

fn read_releases<F: Folder>(
    alloc: Global,
    places: &Places,
    env: &Env,
    name: &Text,
    totals: &mut Totals,
    folder: &mut F,
) -> Result<Option<List<Release>>, Trouble>
    ensures observed { IfSome (F.tells folder.old) (λ files. IfOk result
        (Reads env.now places.now files name.now totals.old totals.new)) }
    ensures judged { IfOk result (λ read. IfSome read (AreJudged env.now name.now)) }
    ensures folder { Leaves F.tells F.faults folder.old folder.new (IsErrOf result Trouble.Failed) }
{
    let names = names_below(alloc, places, name, folder)?;
    let dirs = versions_among(alloc, names.as_slice())?;
    let paths = release_paths(alloc, places, name, dirs.as_slice())?;
    let read = read_counted(alloc, paths.as_slice(), totals, folder)?;
    if read.beyond {
        return Ok(None);
    }
    let releases = releases_of(alloc, name, dirs.as_slice(), read.files.as_slice(), env)?;
    Ok(Some(releases))
}

fn names_below<F: Folder>(
    alloc: Global,
    places: &Places,
    name: &Text,
    folder: &mut F,
) -> Result<List<Name>, Trouble>
    ensures observed { IfSome (F.tells folder.old)
        (λ files. IfOk result (λ names. names ≡ names_below places.now files name.now)) }
    ensures order { IfOk result IsInOrder }
    ensures folder { Leaves F.tells F.faults folder.old folder.new (IsErrOf result Trouble.Failed) }
{
    let dir = name_dir(places, name.as_str())?;
    let names = list_names(alloc, dir.as_str(), folder)?;
    Ok(names.unwrap_or(List::new(alloc)))
}

fn release_paths(
    alloc: Global,
    places: &Places,
    name: &Text,
    dirs: &[VersionDir],
) -> Result<List<Text>, NoMemory>
    ensures { IfOk result (λ paths. paths ≡ release_paths places.now name.now dirs.now) }
{
    let mut paths = List::new(alloc);
    for dir in dirs {
        paths.push(release_path(places, name.as_str(), dir.text.as_str())?)?;
    }
    Ok(paths)
}
