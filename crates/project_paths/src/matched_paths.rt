// Where the names of a pattern lead. A literal name isn't looked up in a listing, unless it ends in `.cabal`. Then the
// listing shows whether the file is there, so that no file is read to find it.
ghost use Rattle.std.specs.Prelude.{◌≡◌, ◌∷◌, [], ◌&&◌, not, map, filter, flat_map, IfOk, IfSome, OnOk, IsErrOf, IsTrue};
ghost use Rattle.std.specs.List.{list_all};
ghost use Rattle.std.specs.Option.{option_copied};
ghost use Rattle.outside_folder.specs.Calls.{Leaves};
ghost use Rattle.project_paths.specs.Listings.{Agree};
ghost use Rattle.project_paths.specs.Places.{below, is_matched, path_in, place_in, places, root};
ghost use Rattle.project_paths.specs.MatchedPaths.{Leads, Settled, dir_of, directory, is_cabal, is_literal, is_looked_up, is_plain, is_taken, path_of, seen};

use crate::listings::Listings;
use crate::places::{FolderPlace, longer_path, place_in, root};
use crate::wildcard::{cut, matches};
use outside_folder::{Folder, Name, Trouble};
use plan_types::{List, NoMemory, Text};
use std::alloc::Global;

/// Where the names of a pattern lead: a place, or a path that wasn't looked up.
#[derive(Debug, Drop)]
pub(crate) enum MatchedPath {
    /// A file or directory from a listing, or the root.
    Listed(FolderPlace),
    /// A path whose last name is a literal name that isn't looked up: a file, a directory or nothing.
    Literal(Text),
}

impl MatchedPath {
    pub fn path(&self) -> &Text
        ensures { result.now ≡ path_of self.now }
    {
        match self {
            MatchedPath::Listed(place) => &place.path,
            MatchedPath::Literal(path) => path,
        }
    }

    /// The path, if the matched path is or may be a directory.
    pub fn dir(&self) -> Option<&Text>
        ensures { option_copied result ≡ dir_of self.now }
    {
        match self {
            MatchedPath::Listed(place) => {
                if place.folder {
                    Some(&place.path)
                } else {
                    None
                }
            }
            MatchedPath::Literal(path) => Some(path),
        }
    }

    /// The same, but it consumes the matched path.
    fn into_dir(self) -> Option<Text>
        ensures { result ≡ dir_of self }
    {
        match self {
            MatchedPath::Listed(place) => { if place.folder { Some(place.path) } else { None } }
            MatchedPath::Literal(path) => Some(path),
        }
    }
}

/// The matched paths to which the names lead from the root.
pub(crate) fn matched_paths<F: Folder>(
    alloc: Global,
    names: &[Text],
    listings: &mut Listings,
    folder: &mut F,
) -> Result<List<MatchedPath>, Trouble>
    requires { Agree (F.tells folder.old) listings.old }
    ensures observed { IfSome (F.tells folder.old)
        (λ files. IfOk result (λ found. Leads files found (places files names.now))) }
    ensures settled { IfSome (F.tells folder.old) (λ files. IfOk result (Settled files)) }
    ensures looked_up { IfOk result (λ found. IsTrue (list_all is_looked_up found)) }
    ensures agree { OnOk result (Agree (F.tells folder.new) listings.new) }
    ensures folder { Leaves F.tells F.faults folder.old folder.new (IsErrOf result Trouble.Failed) }
{
    let mut found = at_root(alloc)?;
    for name in names {
        found = all_below(alloc, name, found, listings, folder)?;
    }
    Ok(found)
}

fn at_root(alloc: Global) -> Result<List<MatchedPath>, NoMemory>
    ensures { IfOk result (λ found. found ≡ MatchedPath.Listed root ∷ []) }
{
    let mut found = List::new(alloc);
    found.push(MatchedPath::Listed(root(alloc)))?;
    Ok(found)
}

fn all_below<F: Folder>(
    alloc: Global,
    pattern: &Text,
    matched_paths: List<MatchedPath>,
    listings: &mut Listings,
    folder: &mut F,
) -> Result<List<MatchedPath>, Trouble>
    requires { Agree (F.tells folder.old) listings.old }
    ensures observed { IfSome (F.tells folder.old)
        (λ files. IfOk result
        (λ found. Leads files found (flat_map (below files pattern.now) (flat_map (seen files) matched_paths)))) }
    ensures settled { IfSome (F.tells folder.old)
        (λ files. IfOk result (λ found. Settled files matched_paths → Settled files found)) }
    ensures looked_up { IfOk result (λ found. IsTrue (list_all is_looked_up found)) }
    ensures agree { OnOk result (Agree (F.tells folder.new) listings.new) }
    ensures folder { Leaves F.tells F.faults folder.old folder.new (IsErrOf result Trouble.Failed) }
{
    let mut found = List::new(alloc);
    for matched in matched_paths.into_vec() {
        let mut more = below(alloc, pattern, matched, listings, folder)?;
        found.append(&mut more)?;
    }
    Ok(found)
}

fn below<F: Folder>(
    alloc: Global,
    pattern: &Text,
    matched: MatchedPath,
    listings: &mut Listings,
    folder: &mut F,
) -> Result<List<MatchedPath>, Trouble>
    requires { Agree (F.tells folder.old) listings.old }
    ensures observed { IfSome (F.tells folder.old)
        (λ files. IfOk result (λ found. Leads files found (flat_map (below files pattern.now) (seen files matched)))) }
    ensures settled { IfSome (F.tells folder.old)
        (λ files. IfOk result (λ found. Settled files (matched ∷ []) → Settled files found)) }
    ensures looked_up { IfOk result (λ found. IsTrue (list_all is_looked_up found)) }
    ensures agree { OnOk result (Agree (F.tells folder.new) listings.new) }
    ensures folder { Leaves F.tells F.faults folder.old folder.new (IsErrOf result Trouble.Failed) }
{
    match matched.into_dir() {
        None => Ok(List::new(alloc)),
        Some(dir) => below_dir(alloc, pattern, dir, listings, folder),
    }
}

fn below_dir<F: Folder>(
    alloc: Global,
    pattern: &Text,
    dir: Text,
    listings: &mut Listings,
    folder: &mut F,
) -> Result<List<MatchedPath>, Trouble>
    requires { Agree (F.tells folder.old) listings.old }
    ensures observed { IfSome (F.tells folder.old)
        (λ files. IfOk result (λ found. Leads files found (below files pattern.now (directory dir)))) }
    ensures settled { IfSome (F.tells folder.old) (λ files. IfOk result (Settled files)) }
    ensures looked_up { IfOk result (λ found. IsTrue (list_all is_looked_up found)) }
    ensures agree { OnOk result (Agree (F.tells folder.new) listings.new) }
    ensures folder { Leaves F.tells F.faults folder.old folder.new (IsErrOf result Trouble.Failed) }
{
    if is_taken(pattern) {
        return Ok(named(alloc, dir, pattern)?);
    }
    listings.list(alloc, &dir, folder)?;
    let found = matching_names(alloc, pattern, &dir, listings.names(&dir))?;
    Ok(found)
}

fn is_taken(name: &Text) -> bool
    ensures { result ≡ is_taken name.now }
{
    is_literal(name) && !is_cabal(name)
}

/// Whether a name ends in `.cabal`.
pub(crate) fn is_cabal(name: &Text) -> bool
    ensures { result ≡ is_cabal name.now }
{
    name.as_bytes().ends_with(b".cabal")
}

// Whether a name matches itself alone.
fn is_literal(name: &Text) -> bool
    ensures { result ≡ is_literal name.now }
{
    let bytes = name.as_bytes();
    !bytes.is_empty() && are_plain(bytes)
}

fn are_plain(bytes: &[u8]) -> bool
    ensures { result ≡ list_all is_plain bytes.now }
{
    bytes.iter().all(|byte| is_plain(*byte))
}

// No name in a directory has a slash, and no path of the system has a NUL.
fn is_plain(byte: u8) -> bool
    ensures { result ≡ is_plain byte }
{
    byte != b'*' && byte != b'/' && byte != 0
}

fn named(alloc: Global, dir: Text, name: &Text) -> Result<List<MatchedPath>, NoMemory>
    ensures { IfOk result (λ found. found ≡ MatchedPath.Literal (path_in dir name.now) ∷ []) }
{
    let mut found = List::new(alloc);
    found.push(MatchedPath::Literal(longer_path(dir, name)?))?;
    Ok(found)
}

fn matching_names(
    alloc: Global,
    pattern: &Text,
    dir: &Text,
    names: &[Name],
) -> Result<List<MatchedPath>, NoMemory>
    ensures { IfOk result (λ found. found ≡ map (λ name. MatchedPath.Listed (place_in dir.now name))
        (filter (is_matched pattern.now) names.now)) }
{
    let pieces = cut(alloc, pattern.as_str())?;
    let mut found = List::new(alloc);
    for name in names {
        if matches(pattern.as_bytes(), pieces.as_slice(), name.text.as_bytes()) {
            found.push(MatchedPath::Listed(place_in(dir, name)?))?;
        }
    }
    Ok(found)
}
