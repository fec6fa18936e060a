// The local packages, each judged before the next is read. Their names are distinct.
ghost use Rattle.std.specs.Prelude.{◌≡◌, ◌++◌, ◌∷◌, [], position, None, IfOk, IfSome, IsErrOf};
ghost use Rattle.outside_folder.specs.Calls.{Leaves};
ghost use Rattle.index_files.specs.File.{HasContentWithinLimit};
ghost use Rattle.index_files.specs.Readings.{AreFromFiles};
ghost use Rattle.index_files.specs.InTurn.{OnPart, Steps};
ghost use Rattle.index_files.specs.Locals.{FileComes, ReadsLocals, TakesLocal, local_name, local_names, with_file, with_local};
ghost use Rattle.plan_types.specs.Bytes.{same_text};
ghost use Rattle.plan_types.specs.Refusal.{Answers, Settles};

use crate::file::{ReadFile, read_file, repeated};
use crate::file_source::source_in;
use crate::local::Local;
use indexmap::IndexSet;
use outside_folder::Folder;
use plan_types::{Cause, Env, Fault, Halt, List, NoMemory, Source, Text, drop_fields};
use std::alloc::Global;

/// Local packages with their names.
#[derive(Debug)]
pub(crate) struct Locals {
    pub list: List<Local>,
    pub names: IndexSet<Text>,
    ghost named: { names.keys ≡ local_names list },
}

impl Drop for Locals {
    fn drop(self) {
        drop_fields!(self; list, names);
    }
}

/// Reads the local packages at these paths, up to the first refusal.
pub(crate) fn read_locals<F: Folder>(
    alloc: Global,
    paths: &[Text],
    env: &Env,
    folder: &mut F,
) -> Result<Locals, Halt>
    ensures observed { IfSome (F.tells folder.old) (λ files. Answers
        (OnPart (λ locals. locals.list) (ReadsLocals env.now paths.now files)) result) }
    ensures form { IfOk result (λ locals. AreFromFiles env.now locals.list) }
    ensures folder { Leaves F.tells F.faults folder.old folder.new (IsErrOf result Halt.Failed) }
{
    let mut locals = Locals::new(alloc);
    for path in paths {
        let file = read_file(alloc, path, true, folder)?;
        locals = locals.with_file(alloc, &file, env)?;
    }
    Ok(locals)
}

impl Locals {
    fn new(alloc: Global) -> Locals
        ensures { result.list ≡ [] }
    {
        Locals {
            list: List::new(alloc),
            names: IndexSet::new(alloc),
        }
    }

    fn with_file(self, alloc: Global, file: &ReadFile, env: &Env) -> Result<Locals, Halt>
        requires { HasContentWithinLimit file.now }
        ensures { Settles (OnPart (λ locals. locals.list)
            (Steps (FileComes env.now) with_file self.list file.now)) result }
    {
        match source_in(alloc, &file.content, env) {
            Ok(source) => self.with_source(&file.path, source),
            Err(Fault::NoMemory) => Err(Halt::NoMemory),
            Err(Fault::At { line, cause }) => Err(file.refused(alloc, line, cause)?),
        }
    }

    fn with_source(self, path: &Text, source: Source) -> Result<Locals, Halt>
        ensures { Settles (OnPart (λ locals. locals.list) (TakesLocal self.list path.now source)) result }
    {
        let local = Local::at(path, source)?;
        match self.names.get_index_of(&local.source.description.name) {
            None => Ok(self.with(local)?),
            Some(place) => {
                let first = &self.list.as_slice()[place].path;
                Err(repeated(local.into_path(), Cause::DuplicateLocal, first)?)
            }
        }
    }

    fn with(self, local: Local) -> Result<Locals, NoMemory>
        requires { position (same_text (local_name local)) (local_names self.list) ≡ None }
        ensures { IfOk result (λ locals. locals.list ≡ self.list ++ local ∷ []) }
    {
        let Locals {
            mut list,
            mut names,
        } = self;
        let name = local.source.description.name.copy()?;
        list.push(local)?;
        names.insert(name)?;
        Ok(Locals { list, names })
    }

    /// The packages without the set of names.
    pub fn into_list(self) -> List<Local>
        ensures { result ≡ self.list }
    {
        let Locals {
            list,
            names: _names,
        } = self;
        list
    }
}
