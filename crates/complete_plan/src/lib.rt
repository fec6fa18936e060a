//! Laws that the plan of a complete, valid assignment over a sound index lacks no node. There is no code here.
//! Each node has a line, since needs form no cycle, so all nodes can be built in some order. A need of another package
//! follows a demand, and the demands of a valid assignment form no cycle. A need within a package follows a dependency
//! among its components, and a sound index has no component cycle.
#![tactic(auto)]

mod laws;

pub use laws::{every_node_has_a_line, printed_plan_lacks_none, valid_plan_lacks_none};
