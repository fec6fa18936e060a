//! Problems of choices: variables with numbered values, barred values and demands. Once all choices of a demand's
//! `when` are made, its target must have an allowed value. Definitions have the valid assignments, the first of them,
//! conflict sets, and the counts of a search.
//! The crate proves the laws of these definitions: conflict sets are sound, and a search without a limit is right.
#![tactic(auto)]

mod conflict_set;
mod laws;
mod outcome;
mod problem;
mod rising;
mod steps;
mod table;
mod trail;
mod values;
mod written;

pub use conflict_set::ConflictSet;
pub use laws::{
    any_order_names_alike, conflicts_are_sound, ends_right, ends_valid, failures_are_sound,
    general_is_lawful, limit_only_gives_up, one_first, plain_count_is_most, valid_alike,
};
pub use outcome::{Counts, Outcome};
pub use plan_types::Limit;
pub use problem::{Choice, Choices, Demand, push_named};
pub use qualified_goals::{Names, Part, Qual, Var, is_before, is_same};
pub use steps::Steps;
pub use table::Table;
pub use trail::Trail;
pub use values::Values;
pub use written::{Written, WrittenVar};
