//! A linked list of variables in goal order, and a chain of cells for each variable. An unlinked entry keeps its
//! neighbours, so that it is relinked in constant time where they are adjacent. Mentions record which demands name a
//! variable, as a chain of that variable.
#![tactic(auto)]

mod chains;
mod links;
mod mentions;
mod places;
mod ring;
mod row;
mod vars;

pub use links::Links;
pub use mentions::{Mention, Mentions};
pub use places::MentionPlaces;
