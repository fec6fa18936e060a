//! Texts of dependencies on libraries and on executables. The readers take the text of a field and return its
//! dependencies, or the fault of the first bad entry, exactly by the definitions of the entries. A text has at most one
//! reading, at most one fault, and never both.
#![tactic(auto)]

mod depends;
mod laws;
mod part;

pub use depends::{read_depends, read_tools};
pub use laws::{one_fault, one_reading, reading_or_fault};
