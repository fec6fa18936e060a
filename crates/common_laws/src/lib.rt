//! Lemmas on lists, tests, orders and small values that the proofs of several crates share. There is no code here.
//! `Graphs` defines paths, cycles and well-formed graphs for the crates that search one.
#![tactic(auto)]
