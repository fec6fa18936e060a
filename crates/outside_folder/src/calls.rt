// A folder's answers for the layers above: what is at a path, or why the run ends.
ghost use Rattle.std.specs.Prelude.{◌≡◌, IfOk, IfSome, IsErrOf, IsTrue};
ghost use Rattle.outside_folder.specs.declared.calls.Trouble.TheVariants.{NoMemory as trouble_no_memory};
ghost use Rattle.outside_folder.specs.Calls.{IsWithin, Leaves, content_at, halt_of};
ghost use Rattle.outside_folder.specs.Files.{is_tree, listing};
ghost use Rattle.outside_folder.specs.Folder.{IsInOrder};

use crate::{Folder, FolderFault, Name};
use plan_types::{Halt, List, NoMemory};
use std::alloc::Global;

/// Why a run ends at once.
#[derive(Clone, Copy, Debug, PartialEq, Eq)]
pub enum Trouble {
    /// The folder failed.
    Failed,
    NoMemory,
}

impl From<NoMemory> for Trouble {
    ghost from_gives = { λ _ trouble. trouble ≡ trouble_no_memory };

    fn from(_: NoMemory) -> Self {
        Trouble::NoMemory
    }
}

impl From<Trouble> for Halt {
    ghost from_gives = { λ trouble halt. halt ≡ halt_of trouble };

    fn from(trouble: Trouble) -> Self {
        match trouble {
            Trouble::Failed => Halt::Failed,
            Trouble::NoMemory => Halt::NoMemory,
        }
    }
}

/// What is at a path.
#[derive(Debug, PartialEq, Eq, Drop)]
pub enum Content {
    /// No file.
    Missing,
    /// A file of more than 1,048,576 bytes.
    TooLarge,
    Bytes(List<u8>),
}

/// The names in a directory, in byte order, each once; `None` where there is no such directory.
pub fn list_names<F: Folder>(
    alloc: Global,
    dir: &str,
    folder: &mut F,
) -> Result<Option<List<Name>>, Trouble>
    ensures observed { IfSome (F.tells folder.old) (λ files. IfOk result (λ names. names ≡ listing files dir.now)) }
    ensures order { IfOk result (λ names. IfSome names IsInOrder) }
    ensures tree { IfSome (F.tells folder.old) (λ files. IsTrue (is_tree files)) }
    ensures folder { Leaves F.tells F.faults folder.old folder.new (IsErrOf result Trouble.Failed) }
{
    match folder.list(alloc, dir) {
        Ok(names) => Ok(names),
        Err(FolderFault::Failed) => Err(Trouble::Failed),
        Err(FolderFault::NoMemory) => Err(Trouble::NoMemory),
        Err(FolderFault::TooLarge) => unreachable!(),
    }
}

/// What is at a path.
pub fn read_content<F: Folder>(
    alloc: Global,
    path: &str,
    folder: &mut F,
) -> Result<Content, Trouble>
    ensures observed { IfSome (F.tells folder.old)
        (λ files. IfOk result (λ content. content ≡ content_at files path.now)) }
    ensures within { IfOk result IsWithin }
    ensures tree { IfSome (F.tells folder.old) (λ files. IsTrue (is_tree files)) }
    ensures folder { Leaves F.tells F.faults folder.old folder.new (IsErrOf result Trouble.Failed) }
{
    match folder.read(alloc, path) {
        Ok(None) => Ok(Content::Missing),
        Ok(Some(bytes)) => Ok(Content::Bytes(bytes)),
        Err(FolderFault::TooLarge) => Ok(Content::TooLarge),
        Err(FolderFault::Failed) => Err(Trouble::Failed),
        Err(FolderFault::NoMemory) => Err(Trouble::NoMemory),
    }
}
