//! The index of a folder. In go the paths of its local files, the extra packages, and the directories of the index and
//! of the unit records. Out comes the index, or the first refusal. Over any folder the index is sound (`IsSound`):
//! packages are in goal order, and all packages and units that are needed are there. Over an observable folder the
//! outcome is that of the definition (`IsFolderIndex`), and it is unique (`one_folder_index`).
#![tactic(auto)]

mod build;
mod laws;

pub use build::build_index;
pub use laws::{extras_are_there, indexes_are_sound, one_folder_index};
