//! Constraints as a project file. In go the constraints of a project; out comes their text, one constraint a line.
//! The text of plain constraints is read back as exactly these constraints.
#![tactic(auto)]

mod flags;
mod laws;
mod project;
mod text;

pub use flags::are_flags;
pub use laws::{text_adds_constraints, text_reads_back};
pub use project::project_with;
pub use text::text_of_freeze;
