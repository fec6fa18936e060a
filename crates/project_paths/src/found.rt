// The local files of a pattern.
ghost use Rattle.std.specs.Prelude.{◌≡◌, ◌∷◌, [], ◌++◌, ◌&&◌, map, filter, not, IfOk, IfSome, OnOk, IsErrOf, IsTrue};
ghost use Rattle.outside_folder.specs.Calls.{Leaves};
ghost use Rattle.outside_folder.specs.Files.{is_tree};
ghost use Rattle.project_paths.specs.Listings.{Agree};
ghost use Rattle.project_paths.specs.Found.{Finds, cabal_in, found_by, matched_files, has_files, is_cabal_file, is_local, is_local_file};
ghost use Rattle.project_paths.specs.MatchedPaths.{is_looked_up, is_open, path_of};

use crate::listings::Listings;
use crate::matched_paths::{MatchedPath, is_cabal, matched_paths};
use crate::pattern::Pattern;
use crate::places::path_in;
use outside_folder::{Folder, Name, Trouble};
use plan_types::{List, NoMemory, Text};
use std::alloc::Global;

/// A path, and the paths of the local files there: the path itself, or the `.cabal` files in it.
#[derive(Debug, Drop)]
pub(crate) struct MatchedFiles {
    pub path: Text,
    pub files: List<Text>,
}

/// The places of a pattern with their local files. Only the places with local files are sure to be the defined ones.
pub(crate) fn found_by<F: Folder>(
    alloc: Global,
    pattern: &Pattern,
    listings: &mut Listings,
    folder: &mut F,
) -> Result<List<MatchedFiles>, Trouble>
    requires { Agree (F.tells folder.old) listings.old }
    ensures observed { IfSome (F.tells folder.old)
        (λ files. IfOk result (λ all. filter has_files all ≡ filter has_files (found_by files pattern.now))) }
    ensures agree { OnOk result (Agree (F.tells folder.new) listings.new) }
    ensures folder { Leaves F.tells F.faults folder.old folder.new (IsErrOf result Trouble.Failed) }
{
    let matched_paths = matched_paths(alloc, pattern.names.as_slice(), listings, folder)?;
    let mut all = List::new(alloc);
    for matched in matched_paths.as_slice() {
        let found = found_at(alloc, pattern.folders, matched, listings, folder)?;
        all.push(found)?;
    }
    Ok(all)
}

fn found_at<F: Folder>(
    alloc: Global,
    folders: bool,
    matched: &MatchedPath,
    listings: &mut Listings,
    folder: &mut F,
) -> Result<MatchedFiles, Trouble>
    requires agree { Agree (F.tells folder.old) listings.old }
    requires looked_up { IsTrue (is_looked_up matched.now) }
    ensures observed { IfSome (F.tells folder.old) (λ files. IfOk result (Finds files folders matched.now)) }
    ensures tree { IfSome (F.tells folder.old)
        (λ files. OnOk result (IsTrue (is_open matched.now) → IsTrue (is_tree files))) }
    ensures agree { OnOk result (Agree (F.tells folder.new) listings.new) }
    ensures folder { Leaves F.tells F.faults folder.old folder.new (IsErrOf result Trouble.Failed) }
{
    let files = files_at(alloc, folders, matched, listings, folder)?;
    let path = matched.path().copy()?;
    Ok(MatchedFiles { path, files })
}

fn files_at<F: Folder>(
    alloc: Global,
    folders: bool,
    matched: &MatchedPath,
    listings: &mut Listings,
    folder: &mut F,
) -> Result<List<Text>, Trouble>
    requires agree { Agree (F.tells folder.old) listings.old }
    requires looked_up { IsTrue (is_looked_up matched.now) }
    ensures observed { IfSome (F.tells folder.old)
        (λ files. IfOk result (λ found. Finds files folders matched.now (matched_files (path_of matched.now) found))) }
    ensures tree { IfSome (F.tells folder.old)
        (λ files. OnOk result (IsTrue (is_open matched.now) → IsTrue (is_tree files))) }
    ensures agree { OnOk result (Agree (F.tells folder.new) listings.new) }
    ensures folder { Leaves F.tells F.faults folder.old folder.new (IsErrOf result Trouble.Failed) }
{
    if is_local_file(folders, matched) {
        return Ok(one_file(alloc, matched.path())?);
    }
    match matched.dir() {
        None => Ok(List::new(alloc)),
        Some(dir) => {
            listings.list(alloc, dir, folder)?;
            let files = cabal_in(alloc, dir, listings.names(dir))?;
            Ok(files)
        }
    }
}

// Whether a matched path is a listed place that is a local file.
fn is_local_file(folders: bool, matched: &MatchedPath) -> bool
    ensures { result ≡ is_local_file folders matched.now }
{
    match matched {
        MatchedPath::Listed(place) => !place.folder && is_local(folders, &place.path),
        MatchedPath::Literal(_) => false,
    }
}

fn is_local(folders: bool, path: &Text) -> bool
    ensures { result ≡ is_local folders path.now }
{
    !folders && is_cabal(path)
}

fn one_file(alloc: Global, path: &Text) -> Result<List<Text>, NoMemory>
    ensures { IfOk result (λ files. files ≡ path.now ∷ []) }
{
    let mut files = List::new(alloc);
    files.push(path.copy()?)?;
    Ok(files)
}

fn cabal_in(alloc: Global, dir: &Text, names: &[Name]) -> Result<List<Text>, NoMemory>
    ensures { IfOk result (λ files. files ≡ cabal_in dir.now names.now) }
{
    let mut files = List::new(alloc);
    for name in names {
        if is_cabal_file(name) {
            files.push(path_in(dir, &name.text)?)?;
        }
    }
    Ok(files)
}

fn is_cabal_file(name: &Name) -> bool
    ensures { result ≡ is_cabal_file name.now }
{
    !name.folder && is_cabal(&name.text)
}
