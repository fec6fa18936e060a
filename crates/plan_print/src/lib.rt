//! The texts of answers: of a plan, a conflict, a search that reached its limit, or a refusal. In go the answer, the
//! index and the names; out comes the whole text, in lines that each end with a line feed. It is the text that
//! `specs` defines, byte for byte.
#![tactic(auto)]

mod cause;
mod choice;
mod note;
mod place;
mod summary;
mod texts;

pub use choice::value_text;
pub use note::{skipped_note, warning_note};
pub use summary::text_of_summary;
pub use texts::{
    text_of_conflict, text_of_giving_up, text_of_not_shrunk, text_of_plan, text_of_refusal,
    text_of_shrunk,
};
