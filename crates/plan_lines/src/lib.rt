//! The line of a plan's node. In go the node, the choices and the identifiers of the node's needs. Out comes its line:
//! kind, package, component, identifier, and whether it is unbuildable (`line_of`). Without a chosen instance there is
//! no line.
#![tactic(auto)]

mod component_name;
mod identifier;
mod line;
mod needed;

pub use line::line_of;
pub use needed::Needed;
