//! Replays of builds. `read_events` turns a file, with one event a line, into events, or finds its first bad line.
//! `replay_text` prints the reply to each event in a build with this many slots, then how many nodes are in each state.
#![tactic(auto)]

mod event;
mod laws;
mod lines;
mod print;
mod read;
mod standing;

pub use event::{EventsFault, JobEvent};
pub use laws::{one_reading, one_replay};
pub use print::replay_text;
pub use read::read_events;
