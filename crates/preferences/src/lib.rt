//! The order in which the instances of a package are tried. In go the instances, the preferred ranges of versions and
//! a policy. Out come the places of the instances, each once, sorted by `instance_cmp`; equal instances go by place.
#![tactic(auto)]

mod candidate;
mod laws;
mod places;
mod policy;

pub use laws::one_order;
pub use places::order;
pub use policy::Policy;
