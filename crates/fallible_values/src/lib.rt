//! Lists, texts, boxes and shared values whose allocations can fail. Out of memory is an error value, never an abort.
//! A contract sees a `Text` as its list of bytes, a `List` as its list of items, and a `Boxed` or a `Shared` as the
//! value inside.
#![tactic(auto)]

mod boxed;
mod list;
mod memory;
mod shared;
mod text;

pub use boxed::Boxed;
pub use list::List;
pub use memory::NoMemory;
pub use shared::Shared;
pub use text::Text;
