// A real folder isn't observable. Its results are proved from the system's answers, for any system, any entries and
// any reader.
ghost use Rattle.std.specs.Prelude.{◌≡◌, ◌≢◌, ◌≤◌, ◌<◌, ◌+◌, ◌^◌, ◌-◌, ◌++◌, ◌↔◌, [], None, length, Ok, Err, Result, Option, List, ℕ, IfOk, IfErr, IfSome, IsSome, OnOk, OnErr, IsErrOf, IsErrAnd, IsTrue, true, false};
ghost use Rattle.std.specs.Iterator.{IsFinite};
ghost use Rattle.std.specs.IoError.{error_kind};
ghost use Rattle.std.specs.declared.alloc.Global.{Global};
ghost use Rattle.std.specs.declared.fs.ReadDir.{ReadDir};
ghost use Rattle.outside_folder.specs.Files.{as_names};
ghost use Rattle.outside_folder.specs.Folder.{IsInOrder, IsWithinLimit};
ghost use Rattle.outside_folder.specs.Faults.{Counts, Rose};
ghost use Rattle.outside_folder.specs.RealFolder.{name_limit, has_long_name, has_zero, system_path, GivesFault, GivesNames, HasNoName, IsFaultOf, IsListingAt, IsListingOf, IsMissing, IsNameOf, IsNothing, IsReadAs, IsReadAt, IsReadOf, IsUnlisted, IsUnread, SaysFolder, SaysNothing, by_text, with_name};

use crate::folder::as_names;
use crate::{FILE_LIMIT, Folder, FolderFault, Name, SystemCalls};
use plan_types::{List, NoMemory, Text};
use std::alloc::Global;
use std::collections::BTreeMap;
use std::fs::{DirEntry, Metadata, ReadDir};
use std::io::{self, ErrorKind};
use std::rt::Files;

const NAME_LIMIT: usize = 1_048_576;

// The length of the longest file name, in bytes.
const LONGEST_NAME: usize = 255;

// The size of the buffer for a read, in bytes. Most files fit in it. A buffer of 64 KiB costs more than it saves: to
// free that much, the C library first joins all small free pieces.
const PIECE: usize = 16_384;

/// A folder of the system, with a count of its faults that stays at 2^64 - 1.
#[derive(Drop)]
pub struct RealFolder<'a, R: Files> {
    rt: &'a R,
    root: Text,
    faults: u64,
    ghost in_range: { faults < 2 ^ 64 },
}

impl<'a, R: Files> RealFolder<'a, R> {
    pub fn new(rt: &'a R, root: Text) -> RealFolder<'a, R>
        ensures root { result.root ≡ root }
        ensures no_faults { result.faults ≡ 0 }
    {
        RealFolder {
            rt,
            root,
            faults: 0,
        }
    }
}

impl<R: SystemCalls> Folder for RealFolder<'_, R> {
    ghost tells = { λ _. None };

    ghost ceiling = { λ _. 2 ^ 64 - 1 };

    ghost faults = { λ folder. folder.faults };

    fn list(&mut self, alloc: Global, dir: &str) -> Result<Option<List<Name>>, FolderFault>
        ensures order { IfOk result (λ names. IfSome names IsInOrder) }
        ensures root { dir.now ≡ [] → IfOk result IsSome }
        ensures never_too_large { IsErrOf result FolderFault.TooLarge → ⊥ }

        // The result comes from the system's answers for the directory at this path below the root.
        ensures asked { IsListingAt (R.lists self.old.rt.now) (R.finds self.old.rt.now)
            ⟦<ReadDir<R, Global> as Iterator>⟧.next_gives self.old.root dir.now result }

        // Only a call that answers `Failed` changes the count.
        ensures failed { IsErrOf result FolderFault.Failed → Rose self.old.faults self.new.faults }
        ensures still { (IsErrOf result FolderFault.Failed → ⊥) → self.new.faults ≡ self.old.faults }
        ensures later { self.old.faults ≤ self.new.faults }
        ensures bounded { self.new.faults ≤ 2 ^ 64 - 1 }
        ensures capped { 2 ^ 64 - 1 ≤ 2 ^ 64 - 1 }
    {
        let mut faults = self.faults;
        let listed = list_at(self.rt, alloc, &mut faults, self.root.as_str(), dir);
        self.faults = faults;
        listed
    }

    fn read(&mut self, alloc: Global, path: &str) -> Result<Option<List<u8>>, FolderFault>
        ensures within { IfOk result IsWithinLimit }

        // The result comes from the system's answers for the file at this path below the root.
        ensures asked { IsReadAt (R.opens self.old.rt.now) (R.gives self.old.rt.now) self.old.root path.now result }

        ensures failed { IsErrOf result FolderFault.Failed → Rose self.old.faults self.new.faults }
        ensures still { (IsErrOf result FolderFault.Failed → ⊥) → self.new.faults ≡ self.old.faults }
        ensures later { self.old.faults ≤ self.new.faults }
        ensures bounded { self.new.faults ≤ 2 ^ 64 - 1 }
        ensures capped { 2 ^ 64 - 1 ≤ 2 ^ 64 - 1 }
    {
        let mut faults = self.faults;
        let read = read_at(self.rt, alloc, &mut faults, self.root.as_str(), path);
        self.faults = faults;
        read
    }
}

// The fault that an error of the system means. A failure is counted in `failed` and nowhere else.
fn fault_of(faults: &mut u64, error: &io::Error) -> FolderFault
    ensures fault { IsFaultOf error.now result }
    ensures counted { Counts faults.old faults.new (result ≡ FolderFault.Failed) }
{
    if error.kind() == ErrorKind::OutOfMemory {
        FolderFault::NoMemory
    } else {
        failed(faults)
    }
}

fn failed(faults: &mut u64) -> FolderFault
    ensures fault { result ≡ FolderFault.Failed }
    ensures rose { Rose faults.old faults.new }
{
    *faults = faults.saturating_add(1);
    FolderFault::Failed
}

// A loop of links leads to nothing.
fn is_nothing(error: &io::Error) -> bool
    ensures { IsTrue result ↔ IsNothing error.now }
{
    matches!(
        error.kind(),
        ErrorKind::NotFound | ErrorKind::NotADirectory | ErrorKind::FilesystemLoop
    )
}

// Nothing has a name that is too long for a file. A path may be too long although all its names are short.
fn is_missing(path: &str, error: &io::Error) -> bool
    ensures { IsTrue result ↔ IsMissing path.now error.now }
{
    is_nothing(error) || is_too_long(path, error)
}

fn is_too_long(path: &str, error: &io::Error) -> bool
    ensures { IsTrue result ↔ ((error_kind error.now ≡ ErrorKind.InvalidFilename) × IsTrue (has_long_name path.now)) }
{
    error.kind() == ErrorKind::InvalidFilename && has_long_name(path.as_bytes())
}

fn has_long_name(path: &[u8]) -> bool
    ensures { result ≡ has_long_name path.now }
{
    path.split(|byte| *byte == b'/')
        .any(|name| name.len() > LONGEST_NAME)
}

fn system_path(alloc: Global, root: &str, path: &str) -> Result<Text, NoMemory>
    ensures { IfOk result (λ whole. whole ≡ system_path root.now path.now) }
{
    let mut whole = Text::from_str(alloc, root)?;
    if !path.is_empty() {
        whole.push_str("/")?;
        whole.push_str(path)?;
    }
    Ok(whole)
}

fn has_zero(path: &str) -> bool
    ensures { result ≡ has_zero path.now }
{
    path.as_bytes().contains(&0)
}

fn list_at<S: SystemCalls>(
    system: &S,
    alloc: Global,
    faults: &mut u64,
    root: &str,
    dir: &str,
) -> Result<Option<List<Name>>, FolderFault>
    ensures order { IfOk result (λ names. IfSome names IsInOrder) }
    ensures root { dir.now ≡ [] → IfOk result IsSome }
    ensures never_too_large { IsErrOf result FolderFault.TooLarge → ⊥ }
    ensures asked { IsListingAt (S.lists system.now) (S.finds system.now)
        ⟦<ReadDir<S, Global> as Iterator>⟧.next_gives root.now dir.now result }
    ensures counted { Counts faults.old faults.new (IsErrOf result FolderFault.Failed) }
{
    if has_zero(dir) {
        return Ok(None);
    }
    let path = system_path(alloc, root, dir)?;
    listing_of(system, alloc, faults, dir, system.entries_at(path.as_str()))
}

// The answer for a directory after an attempt to open it.
fn listing_of<S: SystemCalls, I: Iterator<Item = io::Result<DirEntry<S, Global>>> + Drop>(
    system: &S,
    alloc: Global,
    faults: &mut u64,
    dir: &str,
    opened: io::Result<I>,
) -> Result<Option<List<Name>>, FolderFault>
    requires can { IfOk opened I.can_next }
    requires finite { IfOk opened (λ entries. IsFinite (I.remaining entries)) }
    ensures observed { IsListingOf (S.finds system.now) I.next_gives dir.now opened result }
    ensures order { IfOk result (λ names. IfSome names IsInOrder) }
    ensures root { dir.now ≡ [] → IfOk result IsSome }
    ensures never_too_large { IsErrOf result FolderFault.TooLarge → ⊥ }
    ensures counted { Counts faults.old faults.new (IsErrOf result FolderFault.Failed) }
{
    match opened {
        Ok(entries) => {
            let names = listed(system, alloc, faults, entries)?;
            Ok(Some(names))
        }
        Err(error) => unlisted(faults, dir, &error),
    }
}

// The root is never missing.
fn unlisted(
    faults: &mut u64,
    dir: &str,
    error: &io::Error,
) -> Result<Option<List<Name>>, FolderFault>
    ensures observed { IsUnlisted dir.now error.now result }
    ensures root { dir.now ≡ [] → IfOk result IsSome }
    ensures never_too_large { IsErrOf result FolderFault.TooLarge → ⊥ }
    ensures counted { Counts faults.old faults.new (IsErrOf result FolderFault.Failed) }
{
    if is_missing(dir, error) && !dir.is_empty() {
        Ok(None)
    } else {
        Err(fault_of(faults, error))
    }
}

// The names of all entries of a directory, in byte order.
fn listed<S: SystemCalls, I: Iterator<Item = io::Result<DirEntry<S, Global>>> + Drop>(
    system: &S,
    alloc: Global,
    faults: &mut u64,
    entries: I,
) -> Result<List<Name>, FolderFault>
    requires can { I.can_next entries }
    requires finite { IsFinite (I.remaining entries) }
    ensures whole { IfOk result (λ listed. GivesNames (S.finds system.now) I.next_gives entries
        (λ names. listed ≡ as_names (by_text names))) }
    ensures failed { IsErrOf result FolderFault.Failed → GivesFault (S.finds system.now) I.next_gives entries }
    ensures order { IfOk result IsInOrder }
    ensures never_too_large { IsErrOf result FolderFault.TooLarge → ⊥ }
    ensures counted { Counts faults.old faults.new (IsErrOf result FolderFault.Failed) }
{
    let names = names_of(system, alloc, faults, entries)?;
    Ok(as_names(alloc, names)?)
}

fn names_of<S: SystemCalls, I: Iterator<Item = io::Result<DirEntry<S, Global>>> + Drop>(
    system: &S,
    alloc: Global,
    faults: &mut u64,
    entries: I,
) -> Result<BTreeMap<Text, bool>, FolderFault>
    requires can { I.can_next entries }
    requires finite { IsFinite (I.remaining entries) }
    ensures whole { IfOk result (λ found. GivesNames (S.finds system.now) I.next_gives entries
        (λ names. found.entries ≡ by_text names)) }
    ensures failed { IsErrOf result FolderFault.Failed → GivesFault (S.finds system.now) I.next_gives entries }
    ensures never_too_large { IsErrOf result FolderFault.TooLarge → ⊥ }
    ensures counted { Counts faults.old faults.new (IsErrOf result FolderFault.Failed) }
{
    let mut names = BTreeMap::new(alloc);
    for entry in entries {
        match name_of(system, alloc, faults, entry) {
            Ok(name) => add_name(faults, &mut names, name)?,
            Err(fault) => return Err(fault),
        }
    }
    Ok(names)
}

// Adds a name. It fails if the limit is reached already.
fn add_name(
    faults: &mut u64,
    names: &mut BTreeMap<Text, bool>,
    name: Name,
) -> Result<(), FolderFault>
    ensures ok { OnOk result (names.new.entries ≡ with_name names.old.entries name) }
    ensures few { OnOk result (length names.old.entries < name_limit) }
    ensures one_more { OnOk result (length names.new.entries ≤ length names.old.entries + 1) }
    ensures failed { IsErrOf result FolderFault.Failed → name_limit ≤ length names.old.entries }
    ensures never_too_large { IsErrOf result FolderFault.TooLarge → ⊥ }
    ensures counted { Counts faults.old faults.new (IsErrOf result FolderFault.Failed) }
{
    if names.len() >= NAME_LIMIT {
        return Err(failed(faults));
    }
    let Name { text, folder } = name;
    names
        .insert(text, folder)
        .map_err(|_| FolderFault::NoMemory)?;
    Ok(())
}

fn name_of<S: SystemCalls>(
    system: &S,
    alloc: Global,
    faults: &mut u64,
    entry: io::Result<DirEntry<S, Global>>,
) -> Result<Name, FolderFault>
    ensures name { IfOk result (IsNameOf (S.finds system.now) entry) }
    ensures no_name { IsErrOf result FolderFault.Failed → HasNoName (S.finds system.now) entry }
    ensures err { IfErr entry (λ error. IsErrAnd result (IsFaultOf error)) }
    ensures never_too_large { IsErrOf result FolderFault.TooLarge → ⊥ }
    ensures counted { Counts faults.old faults.new (IsErrOf result FolderFault.Failed) }
{
    match entry {
        Ok(entry) => {
            let text = Text::from_str(alloc, entry.file_name())?;
            let folder = is_folder(faults, system.metadata_at(entry.path()))?;
            Ok(Name { text, folder })
        }
        Err(error) => Err(fault_of(faults, &error)),
    }
}

fn is_folder(faults: &mut u64, found: io::Result<Metadata>) -> Result<bool, FolderFault>
    ensures said { IfOk result (SaysFolder found) }
    ensures unsaid { IfErr result (SaysNothing found) }
    ensures never_too_large { IsErrOf result FolderFault.TooLarge → ⊥ }
    ensures counted { Counts faults.old faults.new (IsErrOf result FolderFault.Failed) }
{
    match found {
        Ok(found) => Ok(found.is_dir()),
        Err(error) if is_nothing(&error) => Ok(false),
        Err(error) => Err(fault_of(faults, &error)),
    }
}

fn read_at<S: SystemCalls>(
    system: &S,
    alloc: Global,
    faults: &mut u64,
    root: &str,
    path: &str,
) -> Result<Option<List<u8>>, FolderFault>
    ensures within { IfOk result IsWithinLimit }
    ensures asked { IsReadAt (S.opens system.now) (S.gives system.now) root.now path.now result }
    ensures counted { Counts faults.old faults.new (IsErrOf result FolderFault.Failed) }
{
    if has_zero(path) {
        return Ok(None);
    }
    let whole = system_path(alloc, root, path)?;
    read_of(system, alloc, faults, path, system.open_at(whole.as_str()))
}

// The answer for a file after an attempt to open it.
fn read_of<S: SystemCalls>(
    system: &S,
    alloc: Global,
    faults: &mut u64,
    path: &str,
    opened: io::Result<S::File>,
) -> Result<Option<List<u8>>, FolderFault>
    ensures observed { IsReadOf (S.gives system.now) path.now opened result }
    ensures within { IfOk result IsWithinLimit }
    ensures counted { Counts faults.old faults.new (IsErrOf result FolderFault.Failed) }
{
    match opened {
        Ok(file) => read_all(system, alloc, faults, path, file),
        Err(error) => unread(faults, path, &error),
    }
}

// Reads a file to its end, or until it is too large.
fn read_all<S: SystemCalls>(
    system: &S,
    alloc: Global,
    faults: &mut u64,
    path: &str,
    file: S::File,
) -> Result<Option<List<u8>>, FolderFault>
    ensures observed { IsReadAs (S.gives system.now) path.now file result }
    ensures within { IfOk result IsWithinLimit }
    ensures counted { Counts faults.old faults.new (IsErrOf result FolderFault.Failed) }
{
    let mut file = file;
    let mut bytes = Vec::new(alloc);
    let mut room = empty_buffer(alloc)?;
    let buffer = room.as_mut_slice();
    while bytes.len() <= FILE_LIMIT {
        match system.read_some(&mut file, buffer) {
            Ok(0) => return Ok(Some(List::from_vec(bytes))),
            Ok(count) => add_piece(&mut bytes, &buffer[..count])?,
            Err(error) => return unread(faults, path, &error),
        }
    }
    Err(FolderFault::TooLarge)
}

fn empty_buffer(alloc: Global) -> Result<Vec<u8>, NoMemory> {
    let mut buffer = Vec::new(alloc);
    buffer.resize(PIECE, 0)?;
    Ok(buffer)
}

fn add_piece(bytes: &mut Vec<u8>, piece: &[u8]) -> Result<(), NoMemory>
    ensures { OnOk result (bytes.new.items ≡ bytes.old.items ++ piece.now) }
{
    bytes.extend_from_slice(piece)?;
    Ok(())
}

// A directory isn't a file: `None`, as for a missing file.
fn unread(faults: &mut u64, path: &str, error: &io::Error) -> Result<Option<List<u8>>, FolderFault>
    ensures observed { IsUnread path.now error.now result }
    ensures within { IfOk result IsWithinLimit }
    ensures never_read { IfOk result (λ bytes. bytes ≡ None) }
    ensures never_too_large { IsErrOf result FolderFault.TooLarge → ⊥ }
    ensures counted { Counts faults.old faults.new (IsErrOf result FolderFault.Failed) }
{
    if is_missing(path, error) || error.kind() == ErrorKind::IsADirectory {
        Ok(None)
    } else {
        Err(fault_of(faults, error))
    }
}
