//! Defines the constraints of a trail, which reproduce its choices, and proves two laws of them. There is no code here.
//! If the trail is that of a complete, valid assignment, its constraints bar no choice of it. If its choices are in
//! their domains, the constraints can be written as text and read back.
#![tactic(auto)]

mod laws;

pub use laws::{frozen_bars_none, frozen_is_plain};
