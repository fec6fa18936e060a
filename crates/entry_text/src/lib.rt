//! Texts of comma-separated entries. `read_entries` takes a text and a `Row`, which reads one entry. It returns the
//! values of all entries, or the fault of the first bad one. Commas in braces don't separate, and one leading and
//! one trailing comma are allowed. The other functions take names and words from an entry.
#![tactic(auto)]

mod entries;
mod name;
mod word;

pub use entries::{EntryKind, are_blanks, pieces, read_each, read_entries};
pub use name::{
    braces_run, component_run, component_text, is_component_byte, name_at, name_run, package_text,
    unblank,
};
pub use word::words;
