//! Records of installed units. `read_record` takes the bytes of a record. It returns the unit's package, version, id
//! and the ids of the units that it needs; nothing for a sublibrary; or `BadRecord` with a line. The outcome is unique.
#![tactic(auto)]

mod contents;
mod field;
mod laws;
mod read;
mod words;

pub use laws::one_record;
pub use read::read_record;
