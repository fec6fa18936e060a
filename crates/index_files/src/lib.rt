//! The files of an index. In go a folder, the paths of its local files, and the extra packages. Out come the local
//! packages, the installed units, and the releases of the closure, which has all names that are reached from local and
//! extra packages; or the first refusal. Over an observable folder the outcome is that of the definition
//! (`AreReadings`).
#![tactic(auto)]

mod closure;
mod file;
mod file_source;
mod local;
mod locals;
mod mentioned_names;
mod names;
mod needed_names;
mod places;
mod read_before;
mod readings;
mod release;
mod totals;
mod unit;
mod units;
mod versions;
mod visit;

pub use closure::FoundName;
pub use local::Local;
pub use readings::{Readings, read_index_files};
pub use release::{Judged, Release};
pub use unit::Unit;
pub use units::Units;
