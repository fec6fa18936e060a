//! The layout of Cabal files. `read_elements` takes the bytes of a file and returns its tree of fields and sections, by
//! lines, indents and braces, or its first fault. The tree is unique, and so is the fault; no file has both.
//! `into_text` and `elements_of` do the same in two steps, for a caller that keeps the text.
//! `items_of` reads lines that a caller makes.
//! `print_elements` returns the canonical text of a tree. The text of a printable tree parses as the same tree, except
//! for line numbers. A tree that was read is printable, unless a value or args end with a carriage return.
#![tactic(auto)]

mod elements;
mod fields;
mod laws;
mod lines;
mod opening;
mod print;
mod read;

pub use laws::{one_fault, one_tree, printable_tree, printed_tree, round_trip, tree_or_fault};
pub use lines::{Line, indent, is_comment, is_lone, kept_lines, trim, trim_end, trim_start};
pub use opening::name_len;
pub use print::print_elements;
pub use read::{as_text, elements_of, into_text, items_of, read_elements};
