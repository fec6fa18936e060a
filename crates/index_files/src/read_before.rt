// What is known before the index is read.
ghost use Rattle.index_files.specs.NeededNames.{needed_in};
ghost use Rattle.index_files.specs.Units.{needed_by};
ghost use Rattle.std.specs.Prelude.{◌≡◌, List, ℕ};

use crate::locals::Locals;
use crate::needed_names::MentionedNames;
use crate::units::Units;
use plan_types::{Env, List, Named, Places};

/// The ground of the closure: all that is known before the index is read.
#[derive(Debug, Drop)]
pub(crate) struct ReadBefore<'a> {
    pub env: &'a Env,
    pub places: &'a Places,
    pub locals: &'a Locals,
    pub units: &'a Units,
    pub extra: &'a List<Named>,
    pub needed: &'a MentionedNames,
    ghost needs: { (name : List ℕ) → needed_in needed.now name ≡ needed_by units.now name },
}
