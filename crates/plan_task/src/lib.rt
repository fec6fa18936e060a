//! Reads what to plan: in go the options of the words and a folder, out comes a task or the first refusal.
//! A task has the index of the folder's packages and the settings of a plan. Over any folder, observable or not,
//! the index is sound. Each extra package of the project is in the index, and exactly these are marked.
#![tactic(auto)]

mod task;

pub use task::{Task, read_task};
