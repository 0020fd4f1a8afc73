//! The inputs of a plant: the value of a byte at a moment, which modules are reached, and what two sides that read
//! one module make of it.
#![tactic(auto)]

mod inputs;
mod law;
mod redundant;
mod value;

pub use inputs::{Inputs, takes_output};
pub use law::{due_when_reached, lasting_difference};
pub use redundant::Redundant;
pub use value::{reachable, value_at};
