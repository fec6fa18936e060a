//! The components of a plan. In go the packages of an index and the choices of a trail. Out come the nodes of the plan,
//! each once, and with each the nodes that it needs (`AreReached`). The first nodes are the wanted components of local
//! and extra packages. The others are all those needed under the chosen flags; only reached nodes are visited.
#![tactic(auto)]

mod chosen;
mod components;
mod known;
mod lookups;
mod needs;
mod node;
mod owner;
mod pieces;
mod put;
mod reached;
mod wanted;

pub use chosen::Chosen;
pub use lookups::chosen_values;
pub use node::{Need, Node, Piece};
pub use reached::{Reached, reach};
