//! What the constraints of a project bar. In go a project and the numbers of names; out come tests on values.
//! A constraint in scope bars the instances that it excludes. A boot library that may not be built is barred.
//! Where a constraint in scope or the project requires a value of a flag or stanza, the other value is barred.
//! Each test agrees with its definition in `Bars`. The ranges of dependencies are relaxed as the project sets.
#![tactic(auto)]

mod constraints;
mod numbered_scope;
mod relaxing;
mod rules;

pub use constraints::Constraints;
