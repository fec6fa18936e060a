//! The build slots of a plan, driven by events. In go the nodes of a plan and a number of slots. Then a build tool asks
//! for the next node to start, and reports completed and failed nodes. A node starts at most once, after all its needs
//! are completed, and never if it needs a failed node. At most as many nodes run as there are slots. These laws are in
//! `laws`; each reply is the only right one (`IsStart`, `IsReportReply`).
#![tactic(auto)]

mod holding;
mod job;
mod jobs;
mod laws;
mod marks;
mod meeting;
mod needs;

pub use job::{JobFault, JobState};
pub use jobs::Jobs;
pub use laws::{
    at_most_the_slots, ends_at_rest, one_reply, starts_after_needs, starts_none_held, starts_once,
    stays_held,
};
