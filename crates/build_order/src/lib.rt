//! The order in which the nodes of a graph can be built. In go, for each node, the nodes that it needs. Out comes
//! the build order: next is always the least node whose needs are all placed (`IsBuildOrder`). Nodes on a cycle stay
//! out, and so do nodes that lead to one. Each need is tested at most twice, and each node is inserted into an ordered
//! set once.
#![tactic(auto)]

mod building;
mod laws;
mod order;
mod ready;

pub use laws::{each_behind_its_needs, every_node_is_placed, one_order, some_order};
pub use order::build_order;
