// The index of any folder is sound, and a folder has at most one.
ghost use Rattle.std.specs.Prelude.{◌≡◌, List, Result};
ghost use Rattle.plan_types.specs.declared.condition.Env.{Env};
ghost use Rattle.plan_types.specs.declared.dependency.Named.{Named};
ghost use Rattle.plan_types.specs.declared.index.Index.{Index};
ghost use Rattle.plan_types.specs.declared.index.Places.{Places};
ghost use Rattle.plan_types.specs.declared.refusal.Refusal.{Refusal};
ghost use Rattle.flatten.specs.Sound.{IsSound};
ghost use Rattle.outside_folder.specs.Files.{Bytes, Files};
ghost use Rattle.index_files.specs.Readings.{AreWellFormed};
ghost use Rattle.index_files.specs.declared.readings.Readings.{Readings};
ghost use Rattle.index_assembly.specs.Folder.{IsFolderIndex};
ghost use Rattle.index_assembly.specs.Index.{IsIndexOf};
ghost use Rattle.package_index.specs.Extra.{AreMarked, AreNamed, AreThere};

use cabal_file::one_source;
use sound_description::{descriptions_are_sound, descriptions_are_well_formed};
use unit_record::one_record;

/// The index of what was read is sound, over any folder.
pub fn indexes_are_sound()
    ensures { (env : Env) (places : Places) (extra : List Named) (readings : Readings) (index : Index)
        → AreWellFormed env places extra readings → AreNamed extra → IsIndexOf extra readings index
        → IsSound env index }
{
    descriptions_are_sound();
    descriptions_are_well_formed();
}

/// Each extra package is in the index, and exactly these packages are marked as extra.
pub fn extras_are_there()
    ensures has { (env : Env) (places : Places) (extra : List Named) (readings : Readings) (index : Index)
        → AreWellFormed env places extra readings → IsIndexOf extra readings index → AreThere extra index }
    ensures marked { (extra : List Named) (readings : Readings) (index : Index)
        → IsIndexOf extra readings index → AreMarked extra index }
{}

/// A folder has at most one outcome: one index or one first refusal.
pub fn one_folder_index()
    ensures { (env : Env) (places : Places) (extra : List Named) (paths : List Bytes) (files : Files)
        (a b : Result Index Refusal)
        → IsFolderIndex env places extra paths files a → IsFolderIndex env places extra paths files b → a ≡ b }
{
    one_source();
    one_record();
}
