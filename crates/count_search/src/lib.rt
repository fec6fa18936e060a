//! The search that counts conflicts. At each point it tries the open variable with the greatest score: the number of
//! conflict sets so far that have it. Of equals it tries the least. Its plan is complete and valid, but needn't be the
//! first.
#![tactic(auto)]

mod counting;
mod ranks;
mod records;
mod search;

pub use counting::Counting;
pub use search::count_search;
