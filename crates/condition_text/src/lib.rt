//! Texts of conditions. `read_cond` takes a text and returns its condition, or its first fault, exactly by the grammar.
//! A text denotes at most one condition, has at most one first fault, and never both.
#![tactic(auto)]

mod laws;
mod name;
mod read;
mod words;

pub use laws::{condition_or_fault, one_condition, one_condition_fault};
pub use read::read_cond;
