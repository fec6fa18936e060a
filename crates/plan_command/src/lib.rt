//! The planner's top call. In go the words and a folder; out come a text in the sink and an exit status.
//! Over an observable folder, a printed plan is that of the first complete, valid assignment, or of some valid one
//! if conflicts are counted. No plan is reported only if no complete, valid assignment exists. The whole text is made
//! before the first write, so a run writes one text, a prefix of it, or nothing.
#![tactic(auto)]

mod answer;
mod command;
mod form;
mod freeze;
mod generate;
mod laws;
mod output;
mod plan;
mod replay;
mod status;

pub use answer::Answer;
pub use command::{print_usage, run};
pub use laws::one_answer;
pub use status::{Status, code_of};
