// The trait of folders, and their answers.
ghost use Rattle.std.specs.Prelude.{◌≡◌, ◌≢◌, ◌≤◌, ◌^◌, ◌-◌, ℕ, List, Option, length, [], IfOk, IfSome, IsSome, IsErrOf, IsTrue};
ghost use Rattle.outside_folder.specs.declared.folder.FolderFault.TheVariants.{NoMemory as folder_no_memory};
ghost use Rattle.outside_folder.specs.Files.{Files, is_tree, as_names};
ghost use Rattle.outside_folder.specs.Folder.{Lists, Reads, IsInOrder, IsWithinLimit};
ghost use Rattle.outside_folder.specs.Faults.{Rose};

use plan_types::{List, NoMemory, Text};
use std::alloc::Global;
use std::collections::BTreeMap;
use thiserror::Error;

/// The largest size of a file that is read, in bytes.
pub const FILE_LIMIT: usize = 1_048_576;

/// A name in a directory, and whether it is the name of a directory.
#[derive(Debug, PartialEq, Eq, PartialOrd, Ord, Drop)]
pub struct Name {
    pub text: Text,
    pub folder: bool,
}

/// Why a directory wasn't listed or a file wasn't read.
#[derive(Clone, Copy, Debug, PartialEq, Eq, Error)]
pub enum FolderFault {
    /// The outside failed, and the count of faults rose.
    #[error("a file or folder could not be read")]
    Failed,
    /// The file has more than 1,048,576 bytes.
    #[error("a file is too large")]
    TooLarge,
    #[error("out of memory")]
    NoMemory,
}

impl From<NoMemory> for FolderFault {
    ghost from_gives = { λ _ fault. fault ≡ folder_no_memory };

    fn from(_: NoMemory) -> Self {
        FolderFault::NoMemory
    }
}

/// A folder of files. Paths are relative to its root, with `/` between names; the root is the empty path.
pub trait Folder {
    /// The files, where the folder is observable.
    ghost tells: { Self → Option Files };

    /// An upper bound of the count of faults.
    ghost ceiling: { Self → ℕ };

    /// The number of failures so far: it rises when a call answers `Failed`, and never falls.
    ghost faults: { Self → ℕ };

    /// The names in a directory, in byte order, each once; `None` where there is no such directory. The root is
    /// never missing.
    fn list(&mut self, alloc: Global, dir: &str) -> Result<Option<List<Name>>, FolderFault>
        ensures observed { Lists (tells self.old) dir.now result }
        ensures order { IfOk result (λ names. IfSome names IsInOrder) }
        ensures root { dir.now ≡ [] → IfOk result IsSome }
        ensures never_too_large { IsErrOf result FolderFault.TooLarge → ⊥ }

        ensures failed { IsErrOf result FolderFault.Failed → Rose (faults self.old) (faults self.new) }
        ensures still { (IsErrOf result FolderFault.Failed → ⊥) → faults self.new ≡ faults self.old }
        ensures later { faults self.old ≤ faults self.new }
        ensures bounded { faults self.new ≤ ceiling self.new }
        ensures capped { ceiling self.new ≤ 2 ^ 64 - 1 }

        ensures tree { IfSome (tells self.old) (λ files. IsTrue (is_tree files)) }
        ensures same_files { tells self.new ≡ tells self.old }
        ensures same_ceiling { ceiling self.new ≡ ceiling self.old };

    /// The bytes of a file; `None` where there is no such file.
    fn read(&mut self, alloc: Global, path: &str) -> Result<Option<List<u8>>, FolderFault>
        ensures observed { Reads (tells self.old) path.now result }
        ensures within { IfOk result IsWithinLimit }

        ensures failed { IsErrOf result FolderFault.Failed → Rose (faults self.old) (faults self.new) }
        ensures still { (IsErrOf result FolderFault.Failed → ⊥) → faults self.new ≡ faults self.old }
        ensures later { faults self.old ≤ faults self.new }
        ensures bounded { faults self.new ≤ ceiling self.new }
        ensures capped { ceiling self.new ≤ 2 ^ 64 - 1 }

        ensures tree { IfSome (tells self.old) (λ files. IsTrue (is_tree files)) }
        ensures same_files { tells self.new ≡ tells self.old }
        ensures same_ceiling { ceiling self.new ≡ ceiling self.old };
}

// The names of a directory as a list, in the order of the map.
pub(crate) fn as_names(alloc: Global, names: BTreeMap<Text, bool>) -> Result<List<Name>, NoMemory>
    ensures names { IfOk result (λ listed. listed ≡ as_names names.entries) }
    ensures order { IfOk result IsInOrder }
{
    let mut listed = List::new(alloc);
    for (text, folder) in names {
        listed.push(Name { text, folder })?;
    }
    Ok(listed)
}
