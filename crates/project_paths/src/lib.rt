//! Finds the local packages of a project. In go the entries of a project and a folder. Out come the paths of the local
//! `.cabal` files, in byte order, each once, or the first refusal. Over an observable folder, the paths and the refusal
//! are the defined ones. Each directory is listed at most once, and no file is read: a literal name isn't looked up,
//! unless it ends in `.cabal`.
#![tactic(auto)]

mod entry;
mod find;
mod found;
mod listings;
mod matched_paths;
mod pattern;
mod places;
mod wildcard;

pub use find::find_packages;
