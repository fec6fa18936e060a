//! The events of a build, from a file in a folder. In go a folder and the path of the file. Out come its events, none
//! if there is no such file, or the refusal of the file: it is too large, or a line is no event (`AreEventsAt`).
#![tactic(auto)]

mod laws;
mod read;

pub use laws::one_event_list;
pub use read::read_event_file;
