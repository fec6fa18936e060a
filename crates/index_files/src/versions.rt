// The versions of a package in the index, from the names of their directories.
ghost use Rattle.std.specs.Prelude.{IfOk, OnOk};
ghost use Rattle.index_files.specs.Releases.{AddsVersion, AreVersions};

use outside_folder::Name;
use plan_types::{List, NoMemory, Text, Version};
use std::alloc::Global;
use version_range::version_of;

/// A version with the name of its directory.
#[derive(Debug, Drop)]
pub(crate) struct VersionDir {
    pub text: Text,
    pub version: Version,
}

/// The names that are versions.
pub(crate) fn versions_among(alloc: Global, names: &[Name]) -> Result<List<VersionDir>, NoMemory>
    ensures { IfOk result (AreVersions names.now) }
{
    let mut dirs = List::new(alloc);
    for name in names {
        push_version(alloc, &mut dirs, &name.text)?;
    }
    Ok(dirs)
}

fn push_version(alloc: Global, dirs: &mut List<VersionDir>, text: &Text) -> Result<(), NoMemory>
    ensures { OnOk result (AddsVersion text.now dirs.old dirs.new) }
{
    match version_of(alloc, text.as_bytes())? {
        None => Ok(()),
        Some(version) => {
            let text = text.copy()?;
            dirs.push(VersionDir { text, version })
        }
    }
}
