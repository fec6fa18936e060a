//! The path of a search through its tree of choices. Each node has a variable, its values in order, and the number of
//! values given so far. Only the nodes of the path are kept.
#![tactic(auto)]

mod tree;

pub use tree::Tree;
