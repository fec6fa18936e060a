// Reads the files of a folder, and then makes the index of them.
ghost use Rattle.std.specs.Prelude.{IfOk, IfSome, IsErrOf};
ghost use Rattle.plan_types.specs.Refusal.{Answers};
ghost use Rattle.flatten.specs.Sound.{IsSound};
ghost use Rattle.outside_folder.specs.Calls.{Leaves};
ghost use Rattle.index_assembly.specs.Folder.{IsFolderIndex};
ghost use Rattle.package_index.specs.Extra.{AreMarked, AreNamed, AreThere};

use crate::laws::{extras_are_there, indexes_are_sound};
use index_assembly::index_of;
use index_files::read_index_files;
use outside_folder::Folder;
use plan_types::{Env, Halt, Index, List, Named, Places, Text};
use std::alloc::Global;

/// The index of a folder with these local files and extra packages. Or the first refusal: of a local file, of a unit
/// record, or of too many files.
pub fn build_index<F: Folder>(
    alloc: Global,
    locals: &List<Text>,
    extra: &List<Named>,
    places: &Places,
    env: &Env,
    folder: &mut F,
) -> Result<Index, Halt>
    requires { AreNamed extra.now }
    ensures observed { IfSome (F.tells folder.old)
        (λ files. Answers (IsFolderIndex env.now places.now extra.now locals.now files) result) }
    ensures sound { IfOk result (IsSound env.now) }
    ensures extra { IfOk result (AreThere extra.now) }
    ensures marked { IfOk result (AreMarked extra.now) }
    ensures folder { Leaves F.tells F.faults folder.old folder.new (IsErrOf result Halt.Failed) }
{
    indexes_are_sound();
    extras_are_there();
    let readings = read_index_files(alloc, locals, extra, places, env, folder)?;
    let index = index_of(alloc, readings, extra)?;
    Ok(index)
}
