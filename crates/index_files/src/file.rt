// Files as they are read from the folder.
ghost use Rattle.std.specs.Prelude.{◌≡◌, ◌+◌, ◌==◌, false, length, map, not, IfOk, IfSome, IsErrOf};
ghost use Rattle.std.specs.List.{AllByRecursion};
ghost use Rattle.plan_types.specs.Refusal.{refusal_at};
ghost use Rattle.outside_folder.specs.Calls.{Leaves};
ghost use Rattle.outside_folder.specs.declared.calls.Trouble.TheVariants.{Failed as trouble_failed};
ghost use Rattle.index_files.specs.File.{Counts, HasContentWithinLimit, content_found, count_of, file_found, fitting_at, size_of};

use crate::totals::Totals;
use outside_folder::{Content, Folder, Trouble, read_content};
use plan_types::{Cause, Halt, List, NoMemory, Refusal, Text};
use std::alloc::Global;

/// A file that was read.
#[derive(Debug, Drop)]
pub(crate) struct ReadFile {
    pub path: Text,
    pub content: Content,
}

impl ReadFile {
    /// The number of files that it counts as.
    pub fn count(&self) -> usize
        ensures { result ≡ count_of self.now }
    {
        match &self.content {
            Content::Missing => 0,
            Content::TooLarge => 1,
            Content::Bytes(_) => 1,
        }
    }

    /// Its number of bytes; 0 if it is too large.
    pub fn size(&self) -> usize
        ensures { result ≡ size_of self.now }
    {
        match &self.content {
            Content::Missing => 0,
            Content::TooLarge => 0,
            Content::Bytes(bytes) => bytes.len(),
        }
    }

    /// The refusal of the file for a fault in it.
    pub fn refused(&self, alloc: Global, line: u32, cause: Cause) -> Result<Halt, NoMemory>
        ensures { IfOk result (λ halt. halt ≡ Halt.Refused (refusal_at self.now.path line cause)) }
    {
        let path = self.path.copy()?;
        Ok(Halt::Refused(Refusal::at(alloc, path, line, cause)))
    }
}

/// The refusal of a file for a name that an earlier file, the detail, has as well.
pub(crate) fn repeated(path: Text, cause: Cause, first: &Text) -> Result<Halt, NoMemory>
    ensures { IfOk result (λ halt.
        halt ≡ Halt.Refused (record { path = path; line = 0; cause = cause; detail = first.now })) }
{
    let detail = first.copy()?;
    Ok(Halt::Refused(Refusal {
        path,
        line: 0,
        cause,
        detail,
    }))
}

/// The files that were read, and whether the next one was too many.
#[derive(Debug, Drop)]
pub(crate) struct Fetched {
    pub files: List<ReadFile>,
    pub beyond: bool,
}

/// Reads the files at these paths, some of which may be missing, up to the first one too many.
pub(crate) fn read_counted<F: Folder>(
    alloc: Global,
    paths: &[Text],
    totals: &mut Totals,
    folder: &mut F,
) -> Result<Fetched, Trouble>
    ensures observed { IfSome (F.tells folder.old)
        (λ files. IfOk result (λ read. read.files ≡ fitting_at totals.old false files paths.now)) }
    ensures counts { IfOk result (λ read. Counts totals.old totals.new read.files) }
    ensures readable { IfOk result (λ read. AllByRecursion HasContentWithinLimit read.files) }
    ensures beyond { IfOk result (λ read. read.beyond ≡ not (length read.files == length paths.now)) }
    ensures folder { Leaves F.tells F.faults folder.old folder.new (IsErrOf result Trouble.Failed) }
{
    let mut files = List::new(alloc);
    for path in paths {
        let file = read_file(alloc, path, false, folder)?;
        if !totals.count(file.count(), file.size()) {
            return Ok(Fetched {
                files,
                beyond: true,
            });
        }
        files.push(file)?;
    }
    Ok(Fetched {
        files,
        beyond: false,
    })
}

/// Reads the file at a path. `listed`: the folder has listed it, so it counts as empty if it is gone by now.
pub(crate) fn read_file<F: Folder>(
    alloc: Global,
    path: &Text,
    listed: bool,
    folder: &mut F,
) -> Result<ReadFile, Trouble>
    ensures observed { IfSome (F.tells folder.old)
        (λ files. IfOk result (λ file. file ≡ file_found listed files path.now)) }
    ensures readable { IfOk result HasContentWithinLimit }
    ensures folder { Leaves F.tells F.faults folder.old folder.new (IsErrOf result Trouble.Failed) }
{
    let content = read_content(alloc, path.as_str(), folder)?;
    let content = content_found(alloc, content, listed);
    let path = path.copy()?;
    Ok(ReadFile { path, content })
}

fn content_found(alloc: Global, content: Content, listed: bool) -> Content
    ensures { result ≡ content_found listed content }
{
    match content {
        Content::Missing => {
            if listed {
                Content::Bytes(List::new(alloc))
            } else {
                Content::Missing
            }
        }
        Content::TooLarge => Content::TooLarge,
        Content::Bytes(bytes) => Content::Bytes(bytes),
    }
}
