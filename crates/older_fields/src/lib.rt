//! Parts of older `.cabal` files. Input: the elements of a file. Output: its version of the Cabal specification; its
//! fields in sections, if it has none; new names for its components; and the first text that needs a later version.
#![tactic(auto)]

mod copies;
mod edition;
mod flat_file;
mod header;
mod item;
mod name_map;
mod names;
mod refused;

pub use copies::{push_copy, push_section, push_value, push_word};
pub use edition::Edition;
pub use flat_file::{all_fields, any_moves, flat, is_too_large};
pub use header::{Header, header_of};
pub use item::{is_field_named, last_named, leading, line_of, text_of};
pub use name_map::{NameMap, put_first};
pub use names::{is_odd, lacks_name, new_name, renamed};
pub use refused::{At, first_fault};
