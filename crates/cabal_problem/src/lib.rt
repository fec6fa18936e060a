//! The problem that the search explores. In go an index and settings. Out come the variables (packages, flags and
//! stanzas under qualifiers), the values of each in the order in which they are tried, which values are barred, and
//! the demands of each choice. It is the one problem of the index and the project (`IsProblemOf`).
//! Its valid assignments are those of the problem with whole conditions (`valid_as_whole`).
#![tactic(auto)]

mod cabal_problem;
mod demands;
mod laws;
mod roots;
mod values;
mod variables;

pub use cabal_problem::CabalProblem;
pub use demands::qual_for;
pub use laws::{listed_as_whole, one_problem, problem_is_lawful, valid_as_whole};
pub use values::package_var;
