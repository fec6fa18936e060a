//! Tests only. Tables of calls with their answers, for cases that no run of the program reaches: of texts, conditions
//! and project files. It promises nothing.
//! Public modules aren't for tests alone, so that mistakes in them are tried.
#![tactic(auto)]

pub mod conditions;
#[cfg(test)]
mod entries;
#[cfg(test)]
mod outlooks;
#[cfg(test)]
mod printed;
pub mod projects;
#[cfg(test)]
mod tables;
