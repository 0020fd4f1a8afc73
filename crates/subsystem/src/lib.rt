//! One side of the pair: its machine, and the lives that it has had.
#![tactic(auto)]

mod parts;

pub use parts::{How, Life, Subsystem};
