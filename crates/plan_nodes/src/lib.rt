//! The nodes of a plan as data: components to build and units that are installed, in build order. `node_line` gives
//! the printed line of a node. `each_line_once` drops each node whose line was printed before.
#![tactic(auto)]

mod line;
mod node;
mod once;

pub use line::{all_needs, name_and_version, node_line, package_text};
pub use node::{NodeKind, PlanNode};
pub use once::each_line_once;
