//! The description of a package. In go the elements of a `.cabal` file; out comes its description or its first fault. A
//! missing or wrong cabal-version comes first, then the other faults by line and rank. A missing name or version, and a
//! cycle of components, come last. The elements have at most one outcome (`one_outcome`).
#![tactic(auto)]

mod fault_order;
mod faults;
mod laws;
mod read;

pub use laws::one_outcome;
pub use read::read_description;
