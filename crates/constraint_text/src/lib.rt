//! Texts of a project's constraints, named ranges and relaxings. The readers take the text of a field and return its
//! entries, or `BadConstraint` for a bad entry, exactly by the definitions of the entries. A text has at most one
//! reading, at most one fault, and never both.
#![tactic(auto)]

mod constraints;
mod laws;
mod named;
mod relax;

pub use constraints::read_constraints;
pub use laws::{one_fault, one_reading, reading_or_fault};
pub use named::read_named;
pub use relax::read_relax;
