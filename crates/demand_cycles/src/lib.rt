//! Cycles among demands: the set of the variables that the demands on cycles name. The search starts at new demands
//! and alternates between steps along edges and against them. Where a new demand lies on a cycle, a ring has what its
//! owner leads to and what leads to its owner. The rings decide which demands lie on cycles.
#![tactic(auto)]

mod cycles;
mod ring;
mod side;
mod var_set;

pub use cycles::{Graph, cycle_set_of, push_owner};
