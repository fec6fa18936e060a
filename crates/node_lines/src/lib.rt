//! The lines of the nodes of a plan. In go the reached nodes and their needs. Out comes the line of each node, or none
//! if one of its needs has none (`AreLines`). A line has the identifiers of its node's needs. So lines are made in
//! build order, each once.
#![tactic(auto)]

mod gather;
mod laws;
mod lines;

pub use laws::one_line;
pub use lines::lines_of;
