//! Tests only. Tables of calls with their answers, for cases that no run of the program reaches: of folders and sinks.
//! It promises nothing.
//! Public modules aren't for tests alone, so that mistakes in them are tried.
#![tactic(auto)]

#[cfg(test)]
mod calls;
#[cfg(test)]
mod files;
pub mod listings;
#[cfg(test)]
mod memory;
#[cfg(test)]
mod real;
#[cfg(test)]
mod sinks;
#[cfg(test)]
mod tables;
