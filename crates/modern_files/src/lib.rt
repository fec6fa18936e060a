//! Many `.cabal` files of any cabal-version in one run. In go the paths of lists in a folder; a list has a path a line.
//! Out comes, for each path in its order, a frame: the file is read by the planner as it is, or it is missing, or it is
//! refused, or here is its text under a cabal-version that is read, with what was changed. No file is written.
#![tactic(auto)]

mod frame;
mod lists;
mod run;
mod status;
mod write;

pub use run::{print_usage, rewrite_files};
pub use status::{Status, code_of};
