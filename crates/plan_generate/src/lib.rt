//! Makes a folder in memory, for timing the planner. In goes a number of packages, from 1 to 2,000; out comes the
//! folder. Each package has three versions, which depend on at most two earlier packages. A local package depends on
//! all. The number alone determines the files, and no call on the folder fails.
#![tactic(auto)]

mod draws;
mod folder;
mod sure_folder;
mod text;

pub use folder::generate;
pub use sure_folder::FaultlessFolder;
