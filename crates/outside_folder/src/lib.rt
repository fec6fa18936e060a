//! The outside world: a trait for a folder that is read, and one for a sink that is written.
//! A path goes in, and its names or bytes come out; a text goes in, and all of it is written, or a prefix.
//! The count of faults rises exactly when a call fails, up to 2^64 - 1. A folder or sink in memory is
//! observable: contracts can see its content. The real ones aren't.
#![tactic(auto)]

mod calls;
mod folder;
mod mem_folder;
mod mem_sink;
mod real_folder;
mod real_sink;
mod sink;
mod system_calls;

pub use calls::{Content, Trouble, list_names, read_content};
pub use folder::{FILE_LIMIT, Folder, FolderFault, Name};
pub use mem_folder::{MemFault, MemFile, MemFolder};
pub use mem_sink::MemSink;
pub use real_folder::RealFolder;
pub use real_sink::{RealSink, WriterSink};
pub use sink::{Sink, SinkFault, write_all};
pub use system_calls::{SystemCalls, WriterCalls};
