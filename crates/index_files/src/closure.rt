// The closure is read name by name, each name once: first the roots, then the names that they mention.
ghost use Rattle.std.specs.Prelude.{◌≡◌, ◌<◌, [], length, map, get_or, IfOk, IfSome, OnOk, IsErrOf};
ghost use Rattle.std.specs.Option.{option_copied};
ghost use Rattle.outside_folder.specs.Calls.{Leaves};
ghost use Rattle.index_files.specs.Closure.{Reaches, asked_by_local, asked_locally, mentioned_by, root_names};
ghost use Rattle.index_files.specs.Ground.{ground_of};
ghost use Rattle.index_files.specs.Locals.{local_names};
ghost use Rattle.index_files.specs.Steps.{AreKept, FindsAt, VisitsAt};
ghost use Rattle.index_files.specs.Names.{put_all};

use crate::local::Local;
use crate::locals::Locals;
use crate::mentioned_names::{put_asked, put_asked_packages};
use crate::names::{put, put_all};
use crate::read_before::ReadBefore;
use crate::release::Release;
use crate::totals::Totals;
use crate::visit::read_name;
use indexmap::IndexSet;
use outside_folder::{Folder, Trouble};
use plan_types::{List, Named, NoMemory, Text};
use std::alloc::Global;

/// A name of the closure with its releases.
#[derive(Debug, Drop)]
pub struct FoundName {
    pub name: Text,
    pub releases: List<Release>,
}

/// Reads all names of the closure. None if the files are too many, with those counted before.
pub(crate) fn read_closure<F: Folder>(
    alloc: Global,
    before: &ReadBefore,
    totals: Totals,
    folder: &mut F,
) -> Result<Option<List<FoundName>>, Trouble>
    ensures observed { IfSome (F.tells folder.old)
        (λ files. IfOk result (Reaches (ground_of before.now) totals.files totals.bytes files)) }
    ensures kept { IfOk result (λ found. IfSome found
        (λ found. AreKept (ground_of before.now) (map (λ f. f.name) found) found)) }
    ensures folder { Leaves F.tells F.faults folder.old folder.new (IsErrOf result Trouble.Failed) }
{
    let mut totals = totals;
    let mut names = roots(alloc, before.locals, before.extra.as_slice())?;
    let mut found = List::new(alloc);
    while found.len() < names.len() {
        match visit(alloc, before, &mut names, found.len(), &mut totals, folder)? {
            None => return Ok(None),
            Some(one) => found.push(one)?,
        }
    }
    Ok(Some(found))
}

// The names with which the closure begins.
fn roots(alloc: Global, locals: &Locals, extra: &[Named]) -> Result<IndexSet<Text>, NoMemory>
    ensures { IfOk result (λ names. names.keys ≡ put_all [] (root_names locals.now.list extra.now)) }
{
    let mut names = IndexSet::new(alloc);
    put_locals(&mut names, locals.list.as_slice())?;
    put_extra(&mut names, extra)?;
    Ok(names)
}

fn put_locals(names: &mut IndexSet<Text>, locals: &[Local]) -> Result<(), NoMemory>
    ensures { OnOk result (names.new.keys ≡ put_all names.old.keys (local_names locals.now)) }
{
    for local in locals {
        put(names, &local.source.description.name)?;
    }
    Ok(())
}

fn put_extra(names: &mut IndexSet<Text>, extra: &[Named]) -> Result<(), NoMemory>
    ensures { OnOk result (names.new.keys ≡ put_all names.old.keys (map (λ named. named.name) extra.now)) }
{
    for named in extra {
        put(names, &named.name)?;
    }
    Ok(())
}

// Reads the releases of the name at this place, and adds the names that it mentions.
fn visit<F: Folder>(
    alloc: Global,
    before: &ReadBefore,
    names: &mut IndexSet<Text>,
    place: usize,
    totals: &mut Totals,
    folder: &mut F,
) -> Result<Option<FoundName>, Trouble>
    requires { place < length names.old.keys }
    ensures observed { IfSome (F.tells folder.old) (λ files. IfOk result
        (VisitsAt (ground_of before.now) files names.old.keys place totals.old totals.new)) }
    ensures found { IfOk result (λ read. IfSome read
        (FindsAt (ground_of before.now) place names.old.keys names.new.keys)) }
    ensures folder { Leaves F.tells F.faults folder.old folder.new (IsErrOf result Trouble.Failed) }
{
    let name = name_at(names, place)?;
    let read = read_name(alloc, before, &name, totals, folder)?;
    match read {
        None => Ok(None),
        Some(releases) => {
            put_mentioned(names, before, &name, releases.as_slice())?;
            Ok(Some(FoundName { name, releases }))
        }
    }
}

fn name_at(names: &IndexSet<Text>, place: usize) -> Result<Text, NoMemory>
    requires { place < length names.now.keys }
    ensures { IfOk result (λ name. name ≡ get_or names.now.keys place []) }
{
    names.get_index(place).unwrap().copy()
}

// The local package of a name, if there is one.
fn local_of<'a>(locals: &'a Locals, name: &Text) -> Option<&'a Local>
    ensures { asked_by_local (option_copied result) ≡ asked_locally locals.now.list name.now }
{
    let place = locals.names.get_index_of(name)?;
    Some(&locals.list.as_slice()[place])
}

// Adds the names that a name mentions.
fn put_mentioned(
    names: &mut IndexSet<Text>,
    before: &ReadBefore,
    name: &Text,
    releases: &[Release],
) -> Result<(), NoMemory>
    ensures { OnOk result (names.new.keys
        ≡ put_all names.old.keys (mentioned_by (ground_of before.now) name.now releases.now)) }
{
    put_local(names, local_of(before.locals, name))?;
    put_all(names, before.needed.by(name))?;
    put_asked(names, releases)
}

fn put_local(names: &mut IndexSet<Text>, local: Option<&Local>) -> Result<(), NoMemory>
    ensures { OnOk result (names.new.keys ≡ put_all names.old.keys (asked_by_local (option_copied local.entry))) }
{
    match local {
        None => Ok(()),
        Some(local) => put_asked_packages(names, &local.source.description),
    }
}
