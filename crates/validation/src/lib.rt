//! The state of a search: the choices so far, with their listed and active demands. A choice of an open variable is
//! accepted, or refused with its conflict set. The last accepted choice can be undone.
#![tactic(auto)]

mod pending;
mod state;
mod verdict;

pub use state::State;
pub use verdict::Verdict;
