//! Shrinks a conflict set of known variables that admits none. The result is a subset that admits none, with an
//! assignment for each of its variables that holds without it. The variables are tried in goal order: one is dropped
//! where the problem of the others has no plan. A budget limits the exhausted points of all searches together.
#![tactic(auto)]

mod laws;
mod restricted;
mod shrinking;

pub use laws::{admits_none_as_restricted, failed_sets_can_be_shrunk};
pub use restricted::Restricted;
pub use shrinking::{ShrinkFault, Shrunk, shrink};
