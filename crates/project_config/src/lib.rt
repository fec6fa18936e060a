//! The project of a folder. In go a folder and an environment. Out come the project of its project files and the paths
//! of its local packages, or the first refusal. Over an observable folder the outcome is that of the definition
//! (`IsFolderProject`), and it is unique (`one_folder_project`).
#![tactic(auto)]

mod files;
mod laws;
mod project;

pub use laws::one_folder_project;
pub use project::{FolderProject, read_folder_project};
