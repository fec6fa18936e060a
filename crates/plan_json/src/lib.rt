//! Answers as JSON. In go a plan, a conflict or the counts of a search, with the index and the names; out comes a line
//! with one object. Its keys are in byte order. The line reads back as the value that `specs` defines for the answer.
#![tactic(auto)]

mod answers;
mod laws;
mod line;
mod parts;

pub use answers::{
    json_of_conflict, json_of_giving_up, json_of_not_shrunk, json_of_plan, json_of_shrunk,
};
pub use laws::compact_texts;
