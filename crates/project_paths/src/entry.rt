// The local files of one entry, or its refusal.
ghost use Rattle.std.specs.Prelude.{◌≡◌, flat_map, IfOk, IfSome, OnOk, IsErrOf};
ghost use Rattle.std.specs.Option.{option_copied};
ghost use Rattle.outside_folder.specs.Calls.{Leaves};
ghost use Rattle.project_paths.specs.Listings.{Agree};
ghost use Rattle.project_paths.specs.Entries.{entry_files, first_crowded, is_crowded, judged, lesser, refusal_of, shown, unless_none};
ghost use Rattle.plan_types.specs.Refusal.{Answers, Settles};

use crate::found::{MatchedFiles, found_by};
use crate::listings::Listings;
use crate::pattern::pattern_of;
use outside_folder::Folder;
use plan_types::{Cause, Halt, List, NoMemory, ProjectEntry, Refusal, Text};
use std::alloc::Global;

/// The paths of the local files of an entry, or its refusal.
pub(crate) fn entry_files<F: Folder>(
    alloc: Global,
    entry: &ProjectEntry,
    listings: &mut Listings,
    folder: &mut F,
) -> Result<List<Text>, Halt>
    requires { Agree (F.tells folder.old) listings.old }
    ensures observed { IfSome (F.tells folder.old)
        (λ files. Answers (λ outcome. outcome ≡ entry_files files entry.now) result) }
    ensures agree { OnOk result (Agree (F.tells folder.new) listings.new) }
    ensures folder { Leaves F.tells F.faults folder.old folder.new (IsErrOf result Halt.Failed) }
{
    let pattern = pattern_of(alloc, entry.text.as_str())?;
    match pattern {
        None => Err(refused(entry, Cause::Unsupported, Text::new(alloc))?),
        Some(pattern) => {
            let found = found_by(alloc, &pattern, listings, folder)?;
            judged(alloc, entry, found)
        }
    }
}

fn refused(entry: &ProjectEntry, cause: Cause, detail: Text) -> Result<Halt, NoMemory>
    ensures { IfOk result (λ halt. halt ≡ Halt.Refused (refusal_of entry.now cause detail)) }
{
    let path = entry.path.copy()?;
    Ok(Halt::Refused(Refusal {
        path,
        line: entry.line,
        cause,
        detail,
    }))
}

fn judged(
    alloc: Global,
    entry: &ProjectEntry,
    found: List<MatchedFiles>,
) -> Result<List<Text>, Halt>
    ensures { Settles (λ outcome. outcome ≡ judged entry.now found) result }
{
    match first_crowded(found.as_slice()) {
        Some(dir) => {
            let detail = shown(alloc, dir)?;
            Err(refused(entry, Cause::TwoCabalFiles, detail)?)
        }
        None => {
            let files = all_files(alloc, found)?;
            unless_none(entry, files)
        }
    }
}

// The first directory, in byte order, with more than one `.cabal` file.
fn first_crowded(found: &[MatchedFiles]) -> Option<&Text>
    ensures { option_copied result ≡ first_crowded found.now }
{
    let mut first = None;
    for one in found {
        if is_crowded(one) {
            first = Some(lesser(first, &one.path));
        }
    }
    first
}

fn is_crowded(found: &MatchedFiles) -> bool
    ensures { result ≡ is_crowded found.now }
{
    found.files.len() >= 2
}

fn lesser<'a>(first: Option<&'a Text>, path: &'a Text) -> &'a Text
    ensures { result.now ≡ lesser (option_copied first.entry) path.entry.now }
{
    match first {
        None => path,
        Some(first) => { if *path < *first { path } else { first } }
    }
}

// A directory's path as it is printed: `.` for the root.
fn shown(alloc: Global, dir: &Text) -> Result<Text, NoMemory>
    ensures { IfOk result (λ text. text ≡ shown dir.now) }
{
    if dir.as_bytes().is_empty() {
        Text::from_str(alloc, ".")
    } else {
        dir.copy()
    }
}

fn all_files(alloc: Global, found: List<MatchedFiles>) -> Result<List<Text>, NoMemory>
    ensures { IfOk result (λ files. files ≡ flat_map (λ f. f.files) found) }
{
    let mut files = List::new(alloc);
    for mut one in found.into_vec() {
        files.append(&mut one.files)?;
    }
    Ok(files)
}

fn unless_none(entry: &ProjectEntry, files: List<Text>) -> Result<List<Text>, Halt>
    ensures { Settles (λ outcome. outcome ≡ unless_none entry.now files) result }
{
    if entry.optional || !files.is_empty() {
        return Ok(files);
    }
    let detail = entry.text.copy()?;
    Err(refused(entry, Cause::NoMatch, detail)?)
}
