//! Tests only. A table of files in the older layout with their trees, as Cabal 3.4.1 reads them. It promises nothing.
#![tactic(auto)]

#[cfg(test)]
mod trees;
