//! The older layout of Cabal files: the forms that Cabal reads under each header. `read_older` takes the bytes of a
//! file and returns its tree of fields and sections, or its first fault. The tree is unique, and so is the fault; no
//! file has both. A tree that was read is printable, unless a value or args end with a carriage return.
//!
//! The lines of a file are laid out again: each piece between braces gets a line of its own, with the number of the
//! line that it stands on. `cabal_lexer` defines and reads the tree of those lines.
//!
//! Where it differs from Cabal's own parser:
//! - At most 64 sections are open at once.
//! - A `}` alone on a line closes a brace, even where it is deeper than the field before it.
//! - A brace in a quoted string is a brace. A byte-order mark is passed over only in a file in UTF-8.
//! - A carriage return ends a line only before a line feed, and U+00A0 is read as a space everywhere.
//! - Behind the brace of a field's values, `--` begins a comment. Between those braces, `{` is text.
//! - A section behind a brace on its line needs no braces.
#![tactic(auto)]

mod cut;
mod laws;
mod read;
mod relaid;
mod state;

pub use laws::{one_fault, one_tree, tree_or_fault};
pub use read::read_older;
