//! The source of a package. In go the bytes of a `.cabal` file and an environment. Out come its description, its
//! demands on other packages and its exposed components; or its first fault: of the layout, of the description, or of
//! too many paths. A file has at most one outcome (`one_source`).
#![tactic(auto)]

mod laws;
mod source;

pub use laws::one_source;
pub use source::read_source;
