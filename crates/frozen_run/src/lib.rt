//! What `freeze` prints of a folder, as the freeze file of that folder, makes the plan that was frozen. In go a folder
//! and the plan that was printed as constraints; out comes that a run without a limit over the folder with that file
//! prints a plan of the same choices and nodes. There is no code here.
#![tactic(auto)]

mod laws;

pub use laws::{frozen_plan_is_found_again, frozen_task_is_same, frozen_trail_is_found_again};
