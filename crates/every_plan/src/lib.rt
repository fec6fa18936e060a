//! Laws that every search ends and every selection has a plan. There is no code here. Names, orders of instances and so
//! the problem of an index exist, and a search over it has a finding. Without a limit this is the first complete, valid
//! assignment, or a conflict set that admits none. Finitely many nodes are reached from a selection, their lines can be
//! sorted, and every graph has a build order.
#![tactic(auto)]

mod plan_laws;
mod search_laws;

pub use plan_laws::some_plan;
pub use search_laws::{first_or_none, some_finding};
