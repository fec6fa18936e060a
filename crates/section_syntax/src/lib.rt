//! Sections of a `.cabal` file. In go the elements of a file and its cabal-version. Out come its name, version, build
//! type and sections. A section has its parts in file order, each with its line and the conditions of its branches. The
//! elements have at most one such reading (`one_file`). Nothing is refused here: a part that can't be read has the
//! cause of its fault, and the crate above picks the first fault.
#![tactic(auto)]

mod branch;
mod element;
mod field;
mod file;
mod items;
mod laws;
mod part;
mod words;

pub use branch::or_never;
pub use file::read_file;
pub use laws::one_file;
pub use part::{File, Head, HeadField, Said, Section, SectionKind, SectionPart};
pub use words::BranchWord;
