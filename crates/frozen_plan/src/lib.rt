//! Laws of a frozen plan: a project with the constraints of a plan's trail. There is no code here.
//! With these constraints no assignment becomes valid that wasn't, and the first one stays first.
//! A search without a limit over the same index finds the same trail.
#![tactic(auto)]

mod laws;

pub use laws::{found_again, frozen_adds_nothing, frozen_stays_first};
