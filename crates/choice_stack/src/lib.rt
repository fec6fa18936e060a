//! A stack of choices, with their listed and active demands. A listed demand waits for the variables of its condition,
//! and becomes active when it is Yes. Open variables are linked in goal order. Choices are pushed without a check for
//! conflicts, and the last one can be undone.
#![tactic(auto)]

mod addition;
mod checks;
mod goals;
mod growth;
mod picked;
mod stack;

pub use addition::Addition;
pub use picked::{Picked, push_range};
pub use stack::Stack;
