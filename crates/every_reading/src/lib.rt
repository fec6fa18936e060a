//! Laws that every text, file, folder and build has a reading. There is no code here. A text denotes a value or has a
//! fault; a file has a tree, a description or a project, or a first fault; a folder has a project and an index, or a
//! refusal; a file of events has events, and a build a replay. That each reading is unique is a law of the crates that
//! read.
#![tactic(auto)]

mod build_laws;
mod file_laws;
mod folder_laws;
mod text_laws;

pub use build_laws::{some_event_list, some_reading, some_replay};
pub use file_laws::{
    some_description, some_file, some_project, some_record, some_source, some_tree,
};
pub use folder_laws::{some_folder_index, some_folder_project};
pub use text_laws::{
    some_condition, some_constraints, some_dependencies, some_range, version_or_none,
};
