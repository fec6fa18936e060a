//! The declarations of a package. In goes its parsed file. Out come its flags sorted by name, its components in file
//! order, and the dependencies of its setup script. Each dependency has its meaning in the package: another package, or
//! components of its own (`meaning`). Faults are found by the crate above.
#![tactic(auto)]

mod branches;
mod component;
mod cycle;
mod declarations;
mod flag_list;
mod gathered;
mod setup;

pub use component::components;
pub use cycle::first_circular;
pub use declarations::{Declared, Meaning};
pub use flag_list::flags;
pub use setup::{is_custom, setup_deps};
