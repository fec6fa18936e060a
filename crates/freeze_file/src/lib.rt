//! Freezes a plan. In go a trail of choices, its index and names; out comes a project with the constraints of the trail
//! and nothing else. If the trail is a complete, valid assignment, no constraint bars a choice of it. Then each
//! constraint is also plain: its text reads back.
#![tactic(auto)]

mod flags;
mod instances;
mod numbers;
mod packages;
mod project;

pub use project::freeze;
