//! Conditions over flags and an environment. `eval` returns Yes, No or Unknown under a partial assignment of flags,
//! from left to right. `paths` returns the paths of a condition: lists of settings of flags. Under each partial
//! assignment, some path holds iff the condition has the wanted value, and no two paths hold together. `numbers_of`
//! counts paths without building them.
#![tactic(auto)]

mod clean;
mod count;
mod environment;
mod laws;
mod path;
mod table;
mod value;

pub use count::{PathCounts, count_paths, numbers_of};
pub use environment::system_of;
pub use laws::{cleaned_before_joined, no_two_paths_hold, some_path_holds};
pub use path::{MOST_PATHS, joined_paths, paths};
pub use table::count_all;
pub use value::{Tri, eval};
