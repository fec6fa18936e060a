//! Laws that every description that is read is sound. There is no code here. Its flags are sorted, its component names
//! are distinct, and its conditions and ranges can be written. Its internal dependencies find their components, and no
//! component is on a cycle of needs. Its name, version and packages are well-formed.
#![tactic(auto)]

mod laws;

pub use laws::{descriptions_are_sound, descriptions_are_well_formed};
