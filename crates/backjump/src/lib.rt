//! The search for a plan. A guide picks the next variable, such as the least open one, and its values are tried in
//! order. A conflict set leads back to the last choice of a variable in it (a backjump). The search ends with the
//! outcome that its definition has: a plan, a set that admits none, or the limit.
#![tactic(auto)]

mod answer;
mod guide;
mod walk;

pub use answer::{guided_search, search};
pub use choice_problem::{Counts, Outcome};
pub use guide::{Guide, Least};
