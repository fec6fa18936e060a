//! Variables of the planner: a qualifier, a package and a part, all by numbers. Their derived order is the goal order.
//! `Names` takes an index, numbers its packages and flags, and prints variables. It promises that the order by numbers
//! is the goal order by names.
#![tactic(auto)]

mod names;
mod variable;

pub use names::Names;
pub use variable::{Part, Qual, Var, is_before, is_same};
