// The names in a folder's directories. Each directory is listed at most once.
ghost use Rattle.std.specs.Prelude.{◌≡◌, List, ℕ, Option, IfOk, IfSome, OnOk, IsErrOf, IsTrue};
ghost use Rattle.outside_folder.specs.Calls.{Leaves};
ghost use Rattle.outside_folder.specs.Files.{Files, is_tree};
ghost use Rattle.project_paths.specs.Listings.{Agree, Puts, kept, listed, names_in};

use indexmap::IndexMap;
use outside_folder::{Folder, Name, Trouble, list_names};
use plan_types::{List, NoMemory, Text, drop_fields};
use std::alloc::Global;

/// The names in the directories listed so far, by path.
#[derive(Debug)]
pub(crate) struct Listings {
    pub by_dir: IndexMap<Text, List<Name>>,
}

impl Drop for Listings {
    fn drop(self) {
        drop_fields!(self; by_dir);
    }
}

impl Listings {
    pub fn new(alloc: Global) -> Listings
        ensures { (tells : Option Files) → Agree tells result }
    {
        Listings {
            by_dir: IndexMap::new(alloc),
        }
    }

    /// Lists a directory, unless it was listed before.
    pub fn list<F: Folder>(
        &mut self,
        alloc: Global,
        dir: &Text,
        folder: &mut F,
    ) -> Result<(), Trouble>
        requires { Agree (F.tells folder.old) self.old }
        ensures observed { IfSome (F.tells folder.old)
            (λ files. OnOk result (kept self.new dir.now ≡ names_in files dir.now)) }
        ensures tree { IfSome (F.tells folder.old) (λ files. OnOk result (IsTrue (is_tree files))) }
        ensures agree { OnOk result (Agree (F.tells folder.new) self.new) }
        ensures folder { Leaves F.tells F.faults folder.old folder.new (IsErrOf result Trouble.Failed) }
    {
        if self.by_dir.contains_key(dir) {
            return Ok(());
        }
        let names = names_in(alloc, dir, folder)?;
        self.put(dir, names)?;
        Ok(())
    }

    fn put(&mut self, dir: &Text, names: List<Name>) -> Result<(), NoMemory>
        ensures { OnOk result (Puts self.old self.new dir.now names) }
    {
        let dir = dir.copy()?;
        self.by_dir.insert(dir, names)?;
        Ok(())
    }

    /// The names in a directory that was listed.
    pub fn names(&self, dir: &Text) -> &[Name]
        ensures { result.now ≡ kept self.now dir.now }
    {
        match self.by_dir.get(dir) {
            Some(names) => names.as_slice(),
            None => &[],
        }
    }
}

fn names_in<F: Folder>(alloc: Global, dir: &Text, folder: &mut F) -> Result<List<Name>, Trouble>
    ensures observed { IfSome (F.tells folder.old) (λ files. IfOk result (λ names. names ≡ names_in files dir.now)) }
    ensures tree { IfSome (F.tells folder.old) (λ files. IsTrue (is_tree files)) }
    ensures folder { Leaves F.tells F.faults folder.old folder.new (IsErrOf result Trouble.Failed) }
{
    let names = list_names(alloc, dir.as_str(), folder)?;
    Ok(names.unwrap_or(List::new(alloc)))
}
