// The local files of all entries.
ghost use Rattle.std.specs.Prelude.{◌≡◌, IfOk, IfSome, OnOk, IsErrOf};
ghost use Rattle.std.specs.Cmp.Lexicographic.{slice_cmp};
ghost use Rattle.std.specs.List.Sorted.{IsStrictlySortedBy};
ghost use Rattle.std.specs.Ordering.{nat_cmp};
ghost use Rattle.outside_folder.specs.Calls.{Leaves};
ghost use Rattle.project_paths.specs.Listings.{Agree};
ghost use Rattle.project_paths.specs.Local.{all_files, finished, implied, in_order, local_files, no_packages, sought};
ghost use Rattle.plan_types.specs.Refusal.{Answers, Settles};

use crate::entry::entry_files;
use crate::listings::Listings;
use outside_folder::Folder;
use plan_types::{Cause, Halt, List, NoMemory, Project, ProjectEntry, Refusal, Text};
use std::alloc::Global;
use std::collections::BTreeSet;

/// The paths of a project's local files in byte order, each once; or the first refusal.
///
/// `implicit` means that there is no `cabal.project`: the optional entry `./*.cabal` comes first. No directory is
/// listed twice, and no file is read. A directory is listed for a name with a star, for one that ends in `.cabal`,
/// and for the `.cabal` files in it.
pub fn find_packages<F: Folder>(
    alloc: Global,
    project: &Project,
    implicit: bool,
    folder: &mut F,
) -> Result<List<Text>, Halt>
    ensures observed { IfSome (F.tells folder.old)
        (λ files. Answers (λ outcome. outcome ≡ local_files files
        (sought implicit project.now.entries)) result) }
    ensures order { IfOk result (IsStrictlySortedBy (slice_cmp nat_cmp)) }
    ensures folder { Leaves F.tells F.faults folder.old folder.new (IsErrOf result Halt.Failed) }
{
    let implied = implied(alloc, implicit)?;
    let mut listings = Listings::new(alloc);
    let mut found = find_entries(alloc, implied.as_slice(), &mut listings, folder)?;
    let mut others = find_entries(alloc, project.entries.as_slice(), &mut listings, folder)?;
    found.append(&mut others)?;
    let paths = finished(alloc, found)?;
    Ok(paths)
}

fn implied(alloc: Global, implicit: bool) -> Result<List<ProjectEntry>, NoMemory>
    ensures { IfOk result (λ entries. entries ≡ implied implicit) }
{
    let mut entries = List::new(alloc);
    if implicit {
        let path = Text::from_str(alloc, "cabal.project")?;
        let text = Text::from_str(alloc, "./*.cabal")?;
        entries.push(ProjectEntry {
            path,
            line: 0,
            text,
            optional: true,
        })?;
    }
    Ok(entries)
}

fn find_entries<F: Folder>(
    alloc: Global,
    entries: &[ProjectEntry],
    listings: &mut Listings,
    folder: &mut F,
) -> Result<List<Text>, Halt>
    requires { Agree (F.tells folder.old) listings.old }
    ensures observed { IfSome (F.tells folder.old)
        (λ files. Answers (λ outcome. outcome ≡ all_files files entries.now) result) }
    ensures agree { OnOk result (Agree (F.tells folder.new) listings.new) }
    ensures folder { Leaves F.tells F.faults folder.old folder.new (IsErrOf result Halt.Failed) }
{
    let mut found = List::new(alloc);
    for entry in entries {
        let mut files = entry_files(alloc, entry, listings, folder)?;
        found.append(&mut files)?;
    }
    Ok(found)
}

fn finished(alloc: Global, found: List<Text>) -> Result<List<Text>, Halt>
    ensures outcome { Settles (λ outcome. outcome ≡ finished found) result }
    ensures order { IfOk result (IsStrictlySortedBy (slice_cmp nat_cmp)) }
{
    let paths = in_order(alloc, found)?;
    if paths.is_empty() {
        return Err(no_packages(alloc)?);
    }
    Ok(paths)
}

fn no_packages(alloc: Global) -> Result<Halt, NoMemory>
    ensures { IfOk result (λ halt. halt ≡ Halt.Refused no_packages) }
{
    let path = Text::from_str(alloc, ".")?;
    Ok(Halt::Refused(Refusal::at(alloc, path, 0, Cause::NoPackages)))
}

fn in_order(alloc: Global, found: List<Text>) -> Result<List<Text>, NoMemory>
    ensures paths { IfOk result (λ paths. paths ≡ in_order found) }
    ensures order { IfOk result (IsStrictlySortedBy (slice_cmp nat_cmp)) }
{
    let set = set_of(alloc, found)?;
    listed(alloc, set)
}

fn set_of(alloc: Global, found: List<Text>) -> Result<BTreeSet<Text>, NoMemory>
    ensures { IfOk result (λ set. set.keys ≡ in_order found) }
{
    let mut set = BTreeSet::new(alloc);
    for path in found.into_vec() {
        set.insert(path)?;
    }
    Ok(set)
}

fn listed(alloc: Global, set: BTreeSet<Text>) -> Result<List<Text>, NoMemory>
    ensures paths { IfOk result (λ paths. paths ≡ set.keys) }
    ensures order { IfOk result (IsStrictlySortedBy (slice_cmp nat_cmp)) }
{
    let mut paths = List::new(alloc);
    for path in set {
        paths.push(path)?;
    }
    Ok(paths)
}
