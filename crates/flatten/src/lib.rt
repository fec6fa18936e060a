//! The dependencies of a description by paths, and its exposed components. In go a description and an environment. Out
//! come a demand for each path of each dependency on another package, and the components that other packages may use.
//! Some demand of a dependency counts iff its whole condition is Yes, and no two count together. `Sound` defines sound
//! indexes.
#![tactic(auto)]

mod demands;
mod exposure;
mod laws;
mod ways;

pub use demands::demands_of;
pub use exposure::exposed;
pub use laws::{counts_as_its_condition, no_two_count};
