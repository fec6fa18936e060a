// A folder in memory on which no call fails.
ghost use Rattle.std.specs.Prelude.{◌≡◌, [], Some};
ghost use Rattle.outside_folder.specs.MemFolder.{mem_fail_at};

use outside_folder::{Folder, FolderFault, MemFolder, Name};
use plan_types::List;
use std::alloc::Global;

/// A folder in memory on which no call fails, so its count of faults stays 0.
#[derive(Drop)]
pub struct FaultlessFolder {
    folder: MemFolder,
    ghost sure: { mem_fail_at folder ≡ [] },
}

impl FaultlessFolder {
    ghost use Rattle.outside_folder.specs.MemFolder.{mem_files};
    ghost use Rattle.plan_generate.specs.SureFolder.{faultless_files};

    pub fn new(folder: MemFolder) -> FaultlessFolder
        requires { mem_fail_at folder ≡ [] }
        ensures { faultless_files result ≡ mem_files folder }
    {
        FaultlessFolder { folder }
    }
}

impl Folder for FaultlessFolder {
    ghost use Rattle.plan_generate.specs.SureFolder.{faultless_files};

    ghost tells = { λ folder. Some (faultless_files folder) };

    ghost ceiling = { λ _. 0 };

    ghost faults = { λ _. 0 };

    fn list(&mut self, alloc: Global, dir: &str) -> Result<Option<List<Name>>, FolderFault> {
        self.folder.list(alloc, dir)
    }

    fn read(&mut self, alloc: Global, path: &str) -> Result<Option<List<u8>>, FolderFault> {
        self.folder.read(alloc, path)
    }
}
