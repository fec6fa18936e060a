// The releases of a package in the index, each with its source or the fault for which it is skipped.
ghost use Rattle.std.specs.Prelude.{◌≡◌, length, IfOk, OnOk};
ghost use Rattle.std.specs.List.{AllByRecursion};
ghost use Rattle.std.specs.declared.result.Result.TheVariants.{Ok};
ghost use Rattle.outside_folder.specs.Calls.{IsWithin};
ghost use Rattle.index_files.specs.File.{HasContentWithinLimit};
ghost use Rattle.index_files.specs.Releases.{AddsRelease, AreReleases, IsJudged, is_in_place, is_missing, judged_as};

use crate::file::ReadFile;
use crate::file_source::source_in;
use crate::versions::VersionDir;
use outside_folder::Content;
use plan_types::{Cause, Description, Env, Fault, List, NoMemory, Source, Text, Version};
use std::alloc::Global;

/// A release's source, or the fault for which it is skipped.
#[derive(Debug, Drop)]
pub enum Judged {
    Readable(Source),
    /// The line is 0 if the cause has none.
    Faulty { line: u32, cause: Cause },
}

/// A file of the index with its judgement.
#[derive(Debug, Drop)]
pub struct Release {
    pub path: Text,
    pub judged: Judged,
}

/// The releases of a package, in the order of its version directories.
pub(crate) fn releases_of(
    alloc: Global,
    name: &Text,
    dirs: &[VersionDir],
    files: &[ReadFile],
    env: &Env,
) -> Result<List<Release>, NoMemory>
    requires as_many { length files.now ≡ length dirs.now }
    requires readable { AllByRecursion HasContentWithinLimit files.now }
    ensures { IfOk result (AreReleases env.now name.now dirs.now files.now) }
{
    let mut releases = List::new(alloc);
    for place in 0..dirs.len() {
        push_release(alloc, &mut releases, name, &dirs[place], &files[place], env)?;
    }
    Ok(releases)
}

fn push_release(
    alloc: Global,
    releases: &mut List<Release>,
    name: &Text,
    dir: &VersionDir,
    file: &ReadFile,
    env: &Env,
) -> Result<(), NoMemory>
    requires { HasContentWithinLimit file.now }
    ensures { OnOk result (AddsRelease env.now name.now dir.now file.now releases.old releases.new) }
{
    if is_missing(&file.content) {
        return Ok(());
    }
    let judged = judge(alloc, name, &dir.version, &file.content, env)?;
    let path = file.path.copy()?;
    releases.push(Release { path, judged })?;
    Ok(())
}

fn is_missing(content: &Content) -> bool
    ensures { result ≡ is_missing content.now }
{
    match content {
        Content::Missing => true,
        Content::TooLarge | Content::Bytes(_) => false,
    }
}

fn judge(
    alloc: Global,
    name: &Text,
    version: &Version,
    content: &Content,
    env: &Env,
) -> Result<Judged, NoMemory>
    requires { IsWithin content.now }
    ensures { IfOk result (IsJudged env.now name.now version.now content.now) }
{
    match source_in(alloc, content, env) {
        Ok(source) => Ok(placed(name, version, source)),
        Err(Fault::NoMemory) => Err(NoMemory),
        Err(Fault::At { line, cause }) => Ok(Judged::Faulty { line, cause }),
    }
}

fn placed(name: &Text, version: &Version, source: Source) -> Judged
    ensures { result ≡ judged_as name.now version.now (Ok source) }
{
    if is_in_place(name, version, &source.description) {
        Judged::Readable(source)
    } else {
        Judged::Faulty {
            line: 0,
            cause: Cause::WrongPlace,
        }
    }
}

fn is_in_place(name: &Text, version: &Version, d: &Description) -> bool
    ensures { result ≡ is_in_place name.now version.now d.now }
{
    d.name == *name && d.version.parts == version.parts
}
