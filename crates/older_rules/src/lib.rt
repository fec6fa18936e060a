//! Older `.cabal` files. `modern_elements` takes the elements of a file of any cabal-version that Cabal reads, and
//! returns elements that say the same under 2.4, 3.0 or 3.4, or the first cause to refuse the file.
#![tactic(auto)]

mod body;
mod change;
mod heads;
mod laws;
mod modern;
#[cfg(test)]
mod tests;
mod tools;
mod tops;

pub use change::Change;
pub use laws::{header_first, one_outcome, sections_alone};
pub use modern::{Modern, modern_elements};
