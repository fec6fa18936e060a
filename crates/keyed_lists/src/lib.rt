//! Maps from keys to lists. An item is pushed to or popped from the list of a key. The lists of other keys are
//! unchanged, and a key without a list has the empty one.
#![tactic(auto)]

mod lists;

pub use lists::{Lists, items_at, pop_at, push_at};
