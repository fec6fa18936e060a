//! The index of packages. In go the readings of a folder and the extra packages. Out comes their index (`IsIndexOf`):
//! packages in goal order, instances in order, skipped files and warnings. A unit is left out if a unit without a
//! record is reached from it through needs.
#![tactic(auto)]

mod groups;
mod index;
mod order;
mod packages;
mod unit_names;
mod units;

pub use index::index_of;
