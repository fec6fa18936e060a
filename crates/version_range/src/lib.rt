//! Versions and ranges of versions. The readers take a text and return its version, range or limit, or its first
//! fault, exactly by the grammar. A printed range denotes itself, if its versions are well-formed and at most 64
//! parentheses are open at once. `Cuts` are a range as sorted ends of half-open intervals, with the same members.
//! Relaxing moves one end.
#![tactic(auto)]

mod bytes;
mod cuts;
mod interval;
mod laws;
mod limit;
mod merge;
mod number;
mod operator;
mod print;
mod read;
mod version;

pub use bytes::byte_due;
pub use cuts::Cuts;
pub use laws::{one_fault, one_range, range_or_fault, reads_back, relaxed_twice};
pub use limit::limit_of;
pub use number::{is_count, number_at};
pub use print::print_range;
pub use read::{range_at_front, read_range};
pub use version::{print_version, read_version, version_of};
