// A folder in memory.
ghost use Rattle.std.specs.Prelude.{◌≡◌, ◌≤◌, ◌^◌, ◌-◌, ◌⊎◌, ◌↔◌, [], true, false, MatchOption, MatchBool, None, Some, ℕ, List, ◌<◌, length, take, if◌then◌else◌, IfOk, IfSome, IsSome, OnOk, IsOk, IfErr, IsErrOf, IsTrue, IsFalse};
ghost use Rattle.std.specs.BTreeMap.{get_by_text};
ghost use Rattle.std.specs.Str.{bytes_eq};
ghost use Rattle.std.specs.Option.{option_copied, option_map};
ghost use Rattle.outside_folder.specs.declared.mem_folder.MemFault.TheVariants.{NoMemory as mem_fault_no_memory};
ghost use Rattle.outside_folder.specs.Files.{is_tree, is_path, after, inside, first_name, name_in, with_name, as_names, unless_missing, file_at};
ghost use Rattle.outside_folder.specs.MemFile.{told, Placed, Listed, AddsAt, PutsNames, HasPlaces, IsFileAt, MayStand, names_at, AreDistinct, IsFront, IsFree, IsUnderFile};
ghost use Rattle.outside_folder.specs.Folder.{Lists, Reads, IsInOrder, IsWithinLimit};
ghost use Rattle.outside_folder.specs.Faults.{Rose, among, ceiling_of, fails_next, next_count};

use crate::{FILE_LIMIT, Folder, FolderFault, Name};
use plan_types::{List, NoMemory, Text, drop_fields};
use std::alloc::Global;
use std::collections::BTreeMap;
use thiserror::Error;

/// A file of a folder in memory.
#[derive(Debug, Drop)]
pub struct MemFile {
    pub path: Text,
    pub bytes: List<u8>,
}

/// Why files don't make a folder.
#[derive(Clone, Copy, Debug, PartialEq, Eq, Error)]
pub enum MemFault {
    #[error("out of memory")]
    NoMemory,
    /// Two paths are equal, one is a directory of another, or a name in a path is empty.
    #[error("the files don't make a tree")]
    BadTree,
}

impl From<NoMemory> for MemFault {
    ghost from_gives = { λ _ fault. fault ≡ mem_fault_no_memory };

    fn from(_: NoMemory) -> Self {
        MemFault::NoMemory
    }
}

/// A folder in memory, whose files are observable. The calls with the numbers in `fail_at` fail; lists and reads
/// are counted together, from 1.
pub struct MemFolder {
    files: List<MemFile>,
    /// The position of each file, by its path.
    places: BTreeMap<String, usize>,
    /// The names in each directory.
    dirs: BTreeMap<String, BTreeMap<Text, bool>>,
    fail_at: List<u64>,
    calls: u64,
    faults: u64,
    ghost tree: { IsTrue (is_tree (told files)) },
    ghost placed: { Placed files places },
    ghost listed: { Listed files dirs },
    ghost counted: { faults ≤ calls },
    ghost bounded: { faults ≤ ceiling_of fail_at },
}

impl Drop for MemFolder {
    fn drop(self) {
        drop_fields!(self; files, places, dirs, fail_at, calls, faults);
    }
}

impl MemFolder {
    ghost use Rattle.outside_folder.specs.MemFolder.{mem_files, mem_calls, mem_fail_at, mem_faults};

    pub fn new(
        alloc: Global,
        files: List<MemFile>,
        fail_at: List<u64>,
    ) -> Result<MemFolder, MemFault>
        ensures files { IfOk result (λ folder. mem_files folder ≡ told files) }
        ensures fail_at { IfOk result (λ folder. mem_fail_at folder ≡ fail_at) }
        ensures no_calls { IfOk result (λ folder. mem_calls folder ≡ 0) }
        ensures no_faults { IfOk result (λ folder. mem_faults folder ≡ 0) }
        ensures tree { IsOk result → IsTrue (is_tree (told files)) }
        ensures bad_tree { IsErrOf result MemFault.BadTree → is_tree (told files) ≡ false }
    {
        let Some(places) = tree_places(alloc, files.as_slice())? else {
            return Err(MemFault::BadTree);
        };
        let dirs = dirs_of(alloc, files.as_slice())?;
        Ok(MemFolder {
            files,
            places,
            dirs,
            fail_at,
            calls: 0,
            faults: 0,
        })
    }

    // Counts a call. True if it is one that is to fail.
    fn fails(&mut self) -> bool
        ensures answer { result ≡ fails_next (mem_fail_at self.old) (mem_calls self.old) }
        ensures counts { mem_calls self.new ≡ next_count (mem_calls self.old) }
        ensures failed { IsTrue result → Rose (mem_faults self.old) (mem_faults self.new) }
        ensures still { IsFalse result → mem_faults self.new ≡ mem_faults self.old }
        ensures later { mem_faults self.old ≤ mem_faults self.new }
        ensures bounded { mem_faults self.new ≤ ceiling_of (mem_fail_at self.new) }
        ensures files { mem_files self.new ≡ mem_files self.old }
        ensures fail_at { mem_fail_at self.new ≡ mem_fail_at self.old }
    {
        if self.calls == u64::MAX {
            return false;
        }
        self.calls += 1;
        if !is_among(self.fail_at.as_slice(), self.calls) {
            return false;
        }
        self.faults += 1;
        true
    }
}

impl Folder for MemFolder {
    ghost use Rattle.outside_folder.specs.MemFolder.{mem_files, mem_calls, mem_fail_at, mem_faults};

    ghost tells = { λ folder. Some (mem_files folder) };

    ghost ceiling = { λ folder. ceiling_of (mem_fail_at folder) };

    ghost faults = { λ folder. mem_faults folder };

    fn list(&mut self, alloc: Global, dir: &str) -> Result<Option<List<Name>>, FolderFault>
        ensures observed { Lists (Some (mem_files self.old)) dir.now result }
        ensures order { IfOk result (λ names. IfSome names IsInOrder) }
        ensures root { dir.now ≡ [] → IfOk result IsSome }
        ensures never_too_large { IsErrOf result FolderFault.TooLarge → ⊥ }

        // Exactly the calls that are to fail do.
        ensures fails { IsErrOf result FolderFault.Failed
            ↔ IsTrue (fails_next (mem_fail_at self.old) (mem_calls self.old)) }
        ensures counts { mem_calls self.new ≡ next_count (mem_calls self.old) }
        ensures fail_at { mem_fail_at self.new ≡ mem_fail_at self.old }
        ensures failed { IsErrOf result FolderFault.Failed → Rose (mem_faults self.old) (mem_faults self.new) }
        ensures still { (IsErrOf result FolderFault.Failed → ⊥) → mem_faults self.new ≡ mem_faults self.old }
        ensures later { mem_faults self.old ≤ mem_faults self.new }
        ensures bounded { mem_faults self.new ≤ ceiling_of (mem_fail_at self.new) }
        ensures capped { ceiling_of (mem_fail_at self.new) ≤ 2 ^ 64 - 1 }

        ensures tree { IsTrue (is_tree (mem_files self.old)) }
        ensures same_files { Some (mem_files self.new) ≡ Some (mem_files self.old) }
        ensures same_ceiling { ceiling_of (mem_fail_at self.new) ≡ ceiling_of (mem_fail_at self.old) }
    {
        if self.fails() {
            return Err(FolderFault::Failed);
        }
        Ok(listing(alloc, &self.dirs, dir)?)
    }

    fn read(&mut self, alloc: Global, path: &str) -> Result<Option<List<u8>>, FolderFault>
        ensures observed { Reads (Some (mem_files self.old)) path.now result }
        ensures within { IfOk result IsWithinLimit }

        ensures fails { IsErrOf result FolderFault.Failed
            ↔ IsTrue (fails_next (mem_fail_at self.old) (mem_calls self.old)) }
        ensures counts { mem_calls self.new ≡ next_count (mem_calls self.old) }
        ensures fail_at { mem_fail_at self.new ≡ mem_fail_at self.old }
        ensures failed { IsErrOf result FolderFault.Failed → Rose (mem_faults self.old) (mem_faults self.new) }
        ensures still { (IsErrOf result FolderFault.Failed → ⊥) → mem_faults self.new ≡ mem_faults self.old }
        ensures later { mem_faults self.old ≤ mem_faults self.new }
        ensures bounded { mem_faults self.new ≤ ceiling_of (mem_fail_at self.new) }
        ensures capped { ceiling_of (mem_fail_at self.new) ≤ 2 ^ 64 - 1 }

        ensures tree { IsTrue (is_tree (mem_files self.old)) }
        ensures same_files { Some (mem_files self.new) ≡ Some (mem_files self.old) }
        ensures same_ceiling { ceiling_of (mem_fail_at self.new) ≡ ceiling_of (mem_fail_at self.old) }
    {
        if self.fails() {
            Err(FolderFault::Failed)
        } else {
            bytes_at(alloc, self.files.as_slice(), &self.places, path)
        }
    }
}

pub(crate) fn is_among(numbers: &[u64], number: u64) -> bool
    ensures { result ≡ among numbers.now number }
{
    numbers.iter().any(|other| *other == number)
}

// A copy of the file at a path.
fn bytes_at(
    alloc: Global,
    files: &[MemFile],
    places: &BTreeMap<String, usize>,
    path: &str,
) -> Result<Option<List<u8>>, FolderFault>
    requires { Placed files.now places.now }
    ensures observed { Reads (Some (told files.now)) path.now result }
    ensures within { IfOk result IsWithinLimit }
    ensures not_failed { IsErrOf result FolderFault.Failed → ⊥ }
{
    match find(files, places, path) {
        None => Ok(None),
        Some(bytes) => {
            if bytes.len() > FILE_LIMIT {
                return Err(FolderFault::TooLarge);
            }
            Ok(Some(copy_of(alloc, bytes)?))
        }
    }
}

fn copy_of(alloc: Global, bytes: &[u8]) -> Result<List<u8>, NoMemory>
    ensures { IfOk result (λ copied. copied ≡ bytes.now) }
{
    Ok(List::from_vec(bytes.to_vec(alloc)?))
}

fn find<'a>(files: &'a [MemFile], places: &BTreeMap<String, usize>, path: &str) -> Option<&'a [u8]>
    requires { Placed files.now places.now }
    ensures { option_copied result ≡ file_at (told files.now) path.now }
{
    let place = place_at(places, path)?;
    Some(files[place].bytes.as_slice())
}

fn place_at(places: &BTreeMap<String, usize>, path: &str) -> Option<usize>
    ensures { result ≡ get_by_text places.now path.now }
{
    places.get(path).copied()
}

fn listing(
    alloc: Global,
    dirs: &BTreeMap<String, BTreeMap<Text, bool>>,
    dir: &str,
) -> Result<Option<List<Name>>, NoMemory>
    ensures observed { IfOk result (λ names. names ≡ unless_missing dir.now (names_at dirs.now dir.now)) }
    ensures order { IfOk result (λ names. IfSome names IsInOrder) }
{
    let names = names_of(alloc, dirs, dir)?;
    if names.is_empty() && !dir.is_empty() {
        return Ok(None);
    }
    Ok(Some(names))
}

fn names_of(
    alloc: Global,
    dirs: &BTreeMap<String, BTreeMap<Text, bool>>,
    dir: &str,
) -> Result<List<Name>, NoMemory>
    ensures names { IfOk result (λ listed. listed ≡ as_names (names_at dirs.now dir.now)) }
    ensures order { IfOk result IsInOrder }
{
    match dirs.get(dir) {
        Some(names) => copied_names(alloc, names),
        None => Ok(List::new(alloc)),
    }
}

fn copied_names(alloc: Global, names: &BTreeMap<Text, bool>) -> Result<List<Name>, NoMemory>
    ensures names { IfOk result (λ listed. listed ≡ as_names names.now.entries) }
    ensures order { IfOk result IsInOrder }
{
    let mut listed = List::new(alloc);
    for (text, folder) in names.iter() {
        let text = text.copy()?;
        listed.push(Name {
            text,
            folder: *folder,
        })?;
    }
    Ok(listed)
}

// The names in each directory in which a file lies.
fn dirs_of(
    alloc: Global,
    files: &[MemFile],
) -> Result<BTreeMap<String, BTreeMap<Text, bool>>, NoMemory>
    ensures { IfOk result (λ dirs. Listed files.now dirs) }
{
    let mut dirs = BTreeMap::new(alloc);
    for file in files {
        add_path(alloc, &mut dirs, file.path.as_str())?;
    }
    Ok(dirs)
}

// Adds the next name of a path to each directory above it.
fn add_path(
    alloc: Global,
    dirs: &mut BTreeMap<String, BTreeMap<Text, bool>>,
    path: &str,
) -> Result<(), NoMemory>
    ensures { OnOk result ((dir : List ℕ)
        → names_at dirs.new dir ≡ with_name (names_at dirs.old dir) (name_in dir path.now)) }
{
    add_in(alloc, dirs, "", path)?;
    for end in 1..path.len() {
        add_at(alloc, dirs, path, end)?;
    }
    Ok(())
}

// The same for the directory above the path that ends at this byte, if there is one.
fn add_at(
    alloc: Global,
    dirs: &mut BTreeMap<String, BTreeMap<Text, bool>>,
    path: &str,
    end: usize,
) -> Result<(), NoMemory>
    requires begun { 0 < end }
    requires within { end < length path.now }
    ensures { OnOk result (AddsAt dirs.old dirs.new path.now end) }
{
    if path.as_bytes()[end] != b'/' {
        return Ok(());
    }
    let (dir, _) = path.split_at(end);
    add_in(alloc, dirs, dir, path)
}

// The same for one directory.
fn add_in(
    alloc: Global,
    dirs: &mut BTreeMap<String, BTreeMap<Text, bool>>,
    dir: &str,
    path: &str,
) -> Result<(), NoMemory>
    ensures { OnOk result (PutsNames dirs.old dirs.new dir.now
        (with_name (names_at dirs.old dir.now) (name_in dir.now path.now))) }
{
    let mut names = taken_names(alloc, dirs, dir);
    add_name(alloc, &mut names, name_in(dir, path))?;
    put_names(alloc, dirs, dir, names)
}

// Removes a directory from the table and returns its names.
fn taken_names(
    alloc: Global,
    dirs: &mut BTreeMap<String, BTreeMap<Text, bool>>,
    dir: &str,
) -> BTreeMap<Text, bool>
    ensures names { result.entries ≡ names_at dirs.old dir.now }
    ensures others { (other : List ℕ) → bytes_eq dir.now other ≡ false
        → names_at dirs.new other ≡ names_at dirs.old other }
{
    match dirs.remove(dir) {
        Some(names) => names,
        None => BTreeMap::new(alloc),
    }
}

fn put_names(
    alloc: Global,
    dirs: &mut BTreeMap<String, BTreeMap<Text, bool>>,
    dir: &str,
    names: BTreeMap<Text, bool>,
) -> Result<(), NoMemory>
    ensures { OnOk result (PutsNames dirs.old dirs.new dir.now names.entries) }
{
    dirs.insert(String::from_str(alloc, dir)?, names)?;
    Ok(())
}

fn add_name(
    alloc: Global,
    names: &mut BTreeMap<Text, bool>,
    name: Option<(&str, bool)>,
) -> Result<(), NoMemory>
    ensures { OnOk result (names.new.entries
        ≡ with_name names.old.entries (option_map (λ name. (name.0.now, name.1)) name.entry)) }
{
    if let Some((name, folder)) = name {
        names.insert(Text::from_str(alloc, name)?, folder)?;
    }
    Ok(())
}

// The next name of a path below a directory, and whether it is a directory's.
fn name_in<'a>(dir: &str, path: &'a str) -> Option<(&'a str, bool)>
    ensures { option_map (λ name. (name.0.now, name.1)) result ≡ name_in dir.now path.now }
{
    if dir.is_empty() {
        return Some(first_name(path));
    }
    match inside(dir, path) {
        None => None,
        Some(rest) => Some(first_name(rest)),
    }
}

fn first_name(path: &str) -> (&str, bool)
    ensures text { result.0.now ≡ (first_name path.now).0 }
    ensures folder { result.1 ≡ (first_name path.now).1 }
{
    match path.split_once('/') {
        Some((name, _)) => (name, true),
        None => (path, false),
    }
}

fn inside<'a>(dir: &str, path: &'a str) -> Option<&'a str>
    ensures { option_copied result ≡ inside dir.now path.now }
{
    match after(dir, path) {
        None => None,
        Some(rest) => after("/", rest),
    }
}

fn after<'a>(front: &str, path: &'a str) -> Option<&'a str>
    ensures { option_copied result ≡ after front.now path.now }
{
    path.strip_prefix(front)
}

// The position of each file; `None` where the files form no tree.
fn tree_places(
    alloc: Global,
    files: &[MemFile],
) -> Result<Option<BTreeMap<String, usize>>, NoMemory>
    ensures { IfOk result (HasPlaces (IsTrue (is_tree (told files.now))) files.now) }
{
    let Some(places) = places_of(alloc, files)? else {
        return Ok(None);
    };
    if stand_apart(files, &places) {
        Ok(Some(places))
    } else {
        Ok(None)
    }
}

// The position of each file; `None` where two have the same path.
fn places_of(alloc: Global, files: &[MemFile]) -> Result<Option<BTreeMap<String, usize>>, NoMemory>
    ensures { IfOk result (HasPlaces (AreDistinct files.now) files.now) }
{
    let mut places = BTreeMap::new(alloc);
    for place in 0..files.len() {
        let path = files[place].path.as_str();
        if place_at(&places, path).is_some() {
            return Ok(None);
        }
        places.insert(String::from_str(alloc, path)?, place)?;
    }
    Ok(Some(places))
}

// Whether all paths are well-formed, and no directory above one is a file's path.
fn stand_apart(files: &[MemFile], places: &BTreeMap<String, usize>) -> bool
    requires distinct { AreDistinct files.now }
    requires placed { Placed files.now places.now }
    ensures { result ≡ is_tree (told files.now) }
{
    for file in files {
        if !fits(places, file.path.as_str()) {
            return false;
        }
    }
    true
}

// Whether a path is well-formed, and no directory above it is a file's path.
fn fits(places: &BTreeMap<String, usize>, path: &str) -> bool
    ensures { MayStand places.now path.now result }
{
    is_path(path.as_bytes()) && !has_file_above(places, path)
}

// Whether a directory above the path is a file's path.
fn has_file_above(places: &BTreeMap<String, usize>, path: &str) -> bool
    ensures { MatchBool result (IsUnderFile places.now path.now) (IsFree places.now path.now) }
{
    for end in 0..path.len() {
        if is_file_above(places, path, end) {
            return true;
        }
    }
    false
}

// Whether the path has a slash at this byte, and what is before it is a file's path.
fn is_file_above(places: &BTreeMap<String, usize>, path: &str, end: usize) -> bool
    requires { end < length path.now }
    ensures { IsFileAt places.now path.now end result }
{
    if path.as_bytes()[end] != b'/' {
        return false;
    }
    let (front, _) = path.split_at(end);
    place_at(places, front).is_some()
}

fn is_path(path: &[u8]) -> bool
    ensures { result ≡ is_path path.now }
{
    path.split(|byte| *byte == b'/')
        .all(|name| !name.is_empty())
}
