//! Identifiers of nodes that are built. In go a node of a plan, the description of its package, the chosen flags and
//! the environment. For a node in the store, out come the text that distinguishes its builds, and an identifier with
//! the SHA-256 of that text. A node built in place gets an identifier without a digest.
#![tactic(auto)]

mod identifier;
mod node_text;

pub use identifier::{id_of, in_place_id};
pub use node_text::{id_text, names_each_once};
