//! Cycles of a graph. The input is, for each node, the list of the nodes that it needs. The result is the least node
//! on a cycle, or none if there is no cycle. The time is linear in nodes and edges.
#![tactic(auto)]

mod first;
mod laws;
mod search;

pub use first::first_on_cycle;
pub use laws::one_first;
