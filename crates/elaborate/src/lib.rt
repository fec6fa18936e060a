//! The component plan. In go a sound index and a trail of choices; out come the nodes of the trail's plan.
//! They are in build order, each line once: what a node needs is printed before it.
//! A trail has one plan, and it lacks no node if each node has a line.
#![tactic(auto)]

mod graph;
mod laws;
mod moves;
mod plan;
mod ranks;
mod told;

pub use laws::{each_need_printed_before, no_node_is_lacking, one_plan};
pub use plan::elaborate;
