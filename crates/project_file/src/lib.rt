//! Project files. In go their texts in reading order, and an environment that decides conditions. Out comes their
//! project, or the refusal of the first file with a fault. Lists add up over all files; of single values the last
//! counts. A file can also be added to a project by itself, so that each is judged before the next is read.
#![tactic(auto)]

mod branch;
mod field;
mod flags;
mod laws;
mod package;
mod part;
mod parts;
mod project;
mod read;
mod text;
mod words;

pub use laws::one_outcome;
pub use read::{ProjectText, empty_project, read_project, with_project_file};
