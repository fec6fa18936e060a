//! A cheap look at a table of conditions, before their paths are built. `outlooks` returns, for each condition, the
//! number of its paths (at most 2^64 - 1), and whether it is known to be never Yes, as for a flag that is both on and
//! off. A `known_impossible` is always right; a condition without it may still be never Yes. Each row is visited once,
//! and uses the facts about earlier rows.
#![tactic(auto)]

mod flag_settings;
mod known;
mod outlook;

pub use outlook::{Outlook, outlooks};
