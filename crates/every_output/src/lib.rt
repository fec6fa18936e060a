//! Laws that words and files always have exactly one output. There is no code here.
//! Options and files have a task or a first refusal. The packages of a task are in goal order, so a search over them
//! has a finding. A found trail has nodes, and these have a text in each form. That the output is unique is a law of
//! `plan_command`.
#![tactic(auto)]

mod laws;

pub use laws::{some_task, the_answer};
