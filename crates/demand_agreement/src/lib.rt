//! The set of the first two demands that disagree: they must agree, but their targets have different values. The search
//! starts at given demands and looks at those that twins of their owners own, where the targets' values differ. Where
//! all instances of the target's package have one value, it looks at no twin.
#![tactic(auto)]

mod agreement;
mod clash;
mod twins;

pub use agreement::{Asked, agreement_set_of};
