//! Common stanzas of a `.cabal` file. In go its sections. Out come the bodies of its components and stanzas, with
//! imports as numbers: a stanza that many sections import is kept once. A body expands to exactly the parts that its
//! section has once its imports are replaced (`with_imports_replaced`).
#![tactic(auto)]

mod name_set;
mod stanzas;

pub use name_set::NameSet;
pub use stanzas::{
    Bodies, Built, Placed, StanzaBody, Stanzas, bodies_of, first_bad_visibility, total_weight,
};
