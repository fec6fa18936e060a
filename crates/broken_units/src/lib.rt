//! Finds the nodes of a graph that reach a marked node. The input is, for each node, the list of the nodes that it
//! needs, and whether it is marked. The result is, for each node, whether it is marked or reaches a marked node. The
//! time is linear in nodes and edges.
#![tactic(auto)]

mod marks;
mod users;

pub use marks::leading;
