//! A `.cabal` file of any cabal-version under one that the planner reads. Input: the bytes of a file. Output: that the
//! planner reads the file as it is; or a text that says the same, with the changes; or a refusal with its line and cause.
//! Promise: the elements of the text are exactly those that the rules make of the file's own, but for line numbers.
#![tactic(auto)]

mod answer;
mod laws;
mod same;

pub use answer::{Answer, modern_file};
pub use laws::{answer_or_refusal, one_answer, one_refusal, text_stays};
