//! Common grammar of texts: blanks, marks, words and chains of operators. Functions take bytes and return the rest of
//! a text, its words, or a boolean. The definitions are generic in the language, a relation of texts and values.
//! `FirstFault` is the first byte at which no reading continues. The lemmas build a correct reader from readers of
//! its parts.
#![tactic(auto)]

mod bytes;
mod word;

pub use bytes::{begins_with, byte_after, skip_blanks};
pub use word::{Between, boolean, is_between, package_name, words};
