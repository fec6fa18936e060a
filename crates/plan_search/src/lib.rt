//! What a search over an index finds. In go a sound index and the settings of a plan. Out comes the trail of the first
//! complete, valid assignment, or of any one under `MostMet`. If there is none, out comes a conflict set that admits no
//! assignment, and on request a minimal part of it. With a limit the search may give up instead. The promises are
//! `IsFindingOf`, which is unique, and `Means`.
#![tactic(auto)]

mod blame;
mod laws;
mod search;

pub use blame::Blame;
pub use laws::{one_finding, what_is_found_is_right};
pub use search::{Finding, Picking, find_plan};
