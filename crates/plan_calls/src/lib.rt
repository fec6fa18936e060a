//! Tests only. Tables of calls with their answers, for cases that no run of the program reaches: of graphs, searches,
//! builds and answers. It promises nothing.
//! Public modules aren't for tests alone, so that mistakes in them are tried.
#![tactic(auto)]

#[cfg(test)]
mod answers;
#[cfg(test)]
mod builds;
#[cfg(test)]
mod flags;
pub mod graphs;
#[cfg(test)]
mod orders;
#[cfg(test)]
mod problems;
#[cfg(test)]
mod searches;
#[cfg(test)]
mod tables;
